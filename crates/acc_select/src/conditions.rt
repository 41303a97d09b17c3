//! Conditions: items that run one of two parts.
#![tactic(auto, using(acc_operations::proofs::ItemLemmas::item_lists))]

ghost use Rattle.std.specs.Prelude.{◌≡◌, IfOk, OnOk};
ghost use Rattle.acc_code.specs.AccTree.{If, end, ◌▸◌};
ghost use Rattle.acc_code.specs.AccView.{item_of, item_list};
ghost use Rattle.acc_operations.specs.Appended.{Appends};
ghost use Rattle.acc_select.specs.Conditions as condition;
ghost use Rattle.acc_select.specs.PartView.{part_of, short_part_of};

use crate::code::{Code, Result};
use crate::part::{Part, ShortPart};
use acc_code::{AccItem, AccOp, AccOperand, Test};
use acc_operations::{op, push};
use std::alloc::Global;

fn single(alloc: Global, item: AccItem) -> Result<Code>
    ensures { IfOk result (λ list. item_list list.items ≡ item_of item ▸ end) }
{
    let mut list = Vec::new(alloc);
    list.push(item)?;
    Ok(list)
}

fn number_list(alloc: Global, n: u16) -> Result<Code>
    ensures { IfOk result (λ list. item_list list.items ≡ condition.number n) }
{
    let mut list = Vec::new(alloc);
    op(&mut list, AccOp::Lack, AccOperand::Number(n))?;
    Ok(list)
}

// The items of a part, in a list of their own.
fn part_list(alloc: Global, part: Part) -> Result<Code>
    ensures { IfOk result (λ list. item_list list.items ≡ condition.part_items (part_of part)) }
{
    match part {
        Part::Short(part) => short_list(alloc, part),
        Part::Runs(list) => Ok(list),
    }
}

fn short_list(alloc: Global, part: ShortPart) -> Result<Code>
    ensures { IfOk result (λ list. item_list list.items ≡ condition.part_items (short_part_of part)) }
{
    match part {
        ShortPart::Nothing => Ok(Vec::new(alloc)),
        ShortPart::One => number_list(alloc, 1),
        ShortPart::Null => number_list(alloc, 0),
        ShortPart::Break => single(alloc, AccItem::Break),
        ShortPart::Continue => single(alloc, AccItem::Continue),
    }
}

/// Runs one of two parts, by a test of the accumulator.
pub(crate) fn choose(code: &mut Code, test: Test, yes: Part, no: Part) -> Result<()>
    ensures { OnOk result (Appends code.old.items code.new.items (If test (condition.part_items (part_of yes)) (condition.part_items (part_of no)) ▸ end)) }
{
    let alloc = *code.allocator();
    let yes = part_list(alloc, yes)?;
    let no = part_list(alloc, no)?;
    push(code, AccItem::If { test, yes, no })
}
