//! The operations at the front of a list, and their steps.
ghost use Rattle.std.specs.Prelude.{◌≡◌, ◌≢◌, ◌<◌, ◌≤◌, ◌++◌, ◌∷◌, [], length, true, false, option_map, MatchOption, IfSome, IfOk, OnOk};
ghost use Rattle.acc_code.specs.AccTree.{Op, item};
ghost use Rattle.acc_code.specs.AccView.{item_list, item_of};
ghost use Rattle.emit_blocks.specs.Places.{places_of};
ghost use Rattle.emit_blocks.specs.Right.{HaveWords};
ghost use Rattle.emit_blocks.specs.Steps as spec;

use crate::accumulator::{ToAccumulator, is_plain_load, is_point};
use crate::site::{FIRST_SCRATCH, Site};
use crate::step::{Reach, Step};
use acc_code::{AccItem, AccOp, AccOperand};
use std::alloc::Global;
use word_base::NoMemory;

/// The scratch word that `AccOp::Point` uses.
const POINT: Reach = Reach::Word(FIRST_SCRATCH + 15);

/// A row with its operand.
#[derive(Clone, Copy)]
struct Operation {
    row: AccOp,
    operand: AccOperand,
}

/// The operation at the front of a list, and what stands behind it.
#[derive(Clone, Copy)]
struct First<'a> {
    operation: Operation,
    behind: &'a [AccItem],
}

fn operation_of(item: &AccItem) -> Option<Operation>
    ensures { option_map spec.operation_in result ≡ spec.operation_of (item_of item.now) }
{
    match item {
        AccItem::Op { op, operand } => Some(Operation {
            row: *op,
            operand: *operand,
        }),
        _ => None,
    }
}

fn first_operation<'a>(items: &'a [AccItem]) -> Option<First<'a>>
    ensures first { MatchOption result (spec.IsNoRun (item_list items.now))
        (λ f. item_list items.now ≡ item (Op f.operation.row f.operation.operand) (item_list f.behind.now)) }
    ensures shorter { IfSome result (λ f. length f.behind.now < length items.now) }
{
    let (first, behind) = items.split_first()?;
    Some(First {
        operation: operation_of(first)?,
        behind,
    })
}

// Whether the accumulator is loaded anew before anything works on it.
fn is_loaded_next(items: &[AccItem]) -> bool
    ensures { result ≡ spec.is_loaded_next (spec.run_at (item_list items.now)) }
{
    let mut rest = items;
    while let Some(first) = first_operation(rest) {
        match ToAccumulator::of(first.operation.row) {
            ToAccumulator::Leaves => rest = first.behind,
            ToAccumulator::Loads => return true,
            ToAccumulator::Works => return false,
        }
    }
    false
}

// What stands behind a load of the accumulator and a Point that are one load of AR1.
fn behind_load_of_pointer<'a>(first: &First<'a>) -> Option<&'a [AccItem]>
    ensures joined { MatchOption result (spec.is_load_of_pointer (spec.operation_in first.now.operation) (spec.run_at (item_list first.now.behind.now)) ≡ false)
        (λ rest. spec.IsJoinedBefore (spec.operation_in first.now.operation) (spec.run_at (item_list first.now.behind.now)) (spec.run_at (item_list rest.now))) }
    ensures shorter { IfSome result (λ rest. length rest.now < length first.now.behind.now) }
{
    if !is_plain_load(first.operation.row) {
        return None;
    }
    let point = first_operation(first.behind)?;
    if is_point(point.operation.row) && is_loaded_next(point.behind) {
        Some(point.behind)
    } else {
        None
    }
}

// The steps of an operation that stands by itself.
#[tactic(auto, using(crate::proofs::Rightness::words_behind))]
fn push_operation(steps: &mut Vec<Step>, site: &Site, operation: Operation) -> Result<(), NoMemory>
    ensures steps { OnOk result (steps.new.items ≡ steps.old.items ++ spec.steps_of_operation (places_of site.now) (spec.operation_in operation)) }
    ensures words { HaveWords steps.old.items → OnOk result (HaveWords steps.new.items) }
{
    if is_point(operation.row) {
        steps.push(Step {
            row: AccOp::Sacl { shift: 0 },
            reach: POINT,
        })?;
        Ok(steps.push(Step {
            row: AccOp::Point,
            reach: POINT,
        })?)
    } else {
        Ok(steps.push(Step {
            row: operation.row,
            reach: site.reach(operation.operand),
        })?)
    }
}

// The steps of an operation, with the Point behind it where both are one. The result is what stands behind these.
#[tactic(auto, using(crate::proofs::Rightness::words_behind))]
fn push_first<'a>(
    steps: &mut Vec<Step>,
    site: &Site,
    first: &First<'a>,
) -> Result<&'a [AccItem], NoMemory>
    ensures steps { IfOk result (λ rest. steps.old.items ++ spec.steps_of (places_of site.now) (spec.operation_in first.now.operation ∷ spec.run_at (item_list first.now.behind.now))
        ≡ steps.new.items ++ spec.steps_of (places_of site.now) (spec.run_at (item_list rest.now))) }
    ensures words { HaveWords steps.old.items → OnOk result (HaveWords steps.new.items) }
    ensures shorter { IfOk result (λ rest. length rest.now ≤ length first.now.behind.now) }
{
    match behind_load_of_pointer(first) {
        Some(rest) => {
            steps.push(Step {
                row: AccOp::Point,
                reach: site.reach(first.operation.operand),
            })?;
            Ok(rest)
        }
        None => {
            push_operation(steps, site, first.operation)?;
            Ok(first.behind)
        }
    }
}

/// The steps of the operations at the front of a list. It fails only where memory is wanting.
pub fn steps_of(alloc: Global, site: &Site, items: &[AccItem]) -> Result<Vec<Step>, NoMemory>
    ensures steps { IfOk result (λ steps. steps.items ≡ spec.steps_of (places_of site.now) (spec.run_at (item_list items.now))) }
    ensures words { IfOk result (λ steps. HaveWords steps.items) }
{
    let mut steps = Vec::new(alloc);
    let mut rest = items;
    while let Some(first) = first_operation(rest) {
        rest = push_first(&mut steps, site, &first)?;
    }
    Ok(steps)
}

/// What stands behind the operations at the front of a list.
pub(crate) fn behind_run<'a>(items: &'a [AccItem]) -> &'a [AccItem]
    ensures items { item_list result.now ≡ spec.behind_run (item_list items.now) }
    ensures most { length result.now ≤ length items.now }
    ensures shorter { spec.run_at (item_list items.now) ≢ [] → length result.now < length items.now }
{
    let mut rest = items;
    while let Some(first) = first_operation(rest) {
        rest = first.behind;
    }
    rest
}
