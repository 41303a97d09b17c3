//! The instructions of a run.
#![tactic(auto, using(crate::proofs::Appending::appended))]

ghost use Rattle.std.specs.Prelude.{◌≡◌, ◌≢◌, ◌<◌, ◌≤◌, [], length, IfOk, OnOk, option_to_list};
ghost use Rattle.c25_isa.specs.Items.{ItemsFit};
ghost use Rattle.acc_code.specs.AccView.{item_list};
ghost use Rattle.emit_blocks.specs.Appended.{Appends, known_of};
ghost use Rattle.emit_blocks.specs.Moves as moves;
ghost use Rattle.emit_blocks.specs.Places.{places_of};
ghost use Rattle.emit_blocks.specs.Right.{AreInstrs, AreRightSteps, HaveWords, IsRightRun, IsRightStep};
ghost use Rattle.emit_blocks.specs.Runs as runs;
ghost use Rattle.emit_blocks.specs.Steps as steps;
ghost use Rattle.emit_blocks.specs.Steps.{run_at};
ghost use Rattle.emit_blocks.specs.declared.step.Reach.TheVariants as reach;

use crate::append::{push, push_some};
use crate::known::Known;
use crate::lookahead::{change_to, moves_by_index, next_address, next_register};
use crate::operations::{behind_run, steps_of};
use crate::rows::{constant_instr, word_instr};
use crate::site::{ScalarPlace, Site};
use crate::step::{Reach, Step};
use acc_code::{AccItem, AccOp};
use c25_isa::{Change, Indirect, Instr, Operand, PieceItem};
use std::alloc::Global;
use word_base::NoMemory;

// An operand through the current register. The register that is needed next is named where it is another one.
fn indirect(change: Change, register: u8, next: Option<u8>) -> Operand
    ensures { result ≡ moves.indirect change register next }
{
    let other = match next {
        Some(next) if next != register => Some(next),
        _ => None,
    };
    Operand::Indirect(Indirect {
        change,
        next: other,
    })
}

// How an access leaves its register.
#[derive(Clone, Copy)]
struct Departure {
    change: Change,
    // Where the register stands behind it.
    address: u16,
}

impl Departure {
    fn towards(next: Option<u16>, index: u8, address: u16) -> Self
        ensures change { result.change ≡ moves.change_to index address next }
        ensures address { result.address ≡ moves.address_behind index address (moves.change_to index address next) }
    {
        let change = change_to(index, address, next);
        let behind = match change {
            Change::Stay => address,
            _ => next.unwrap_or(address),
        };
        Departure {
            change,
            address: behind,
        }
    }
}

fn push_scalar(
    code: &mut Vec<PieceItem>,
    known: &mut Known,
    index: u8,
    row: AccOp,
    place: ScalarPlace,
    behind: &[Step],
) -> Result<(), NoMemory>
    requires { place.register < 8 }
    ensures code { OnOk result (Appends code.old.items code.new.items (runs.row_code index (known_of known.old) row (reach.Scalar place) behind.now)) }
    ensures known { OnOk result (known_of known.new ≡ runs.known_behind index (known_of known.old) (reach.Scalar place) behind.now) }
{
    let next = next_address(place.register, behind);
    let left = Departure::towards(next, index, place.address);
    push_some(code, known.moved(place.register, place.address))?;
    push_some(code, known.made_current(place.register))?;
    let operand = indirect(left.change, place.register, next_register(behind));
    push(code, word_instr(row, operand))?;
    known.set_standing(place.register, left.address);
    known.set_current();
    Ok(())
}

fn push_pointer(
    code: &mut Vec<PieceItem>,
    known: &mut Known,
    row: AccOp,
    behind: &[Step],
) -> Result<(), NoMemory>
    ensures code { OnOk result (Appends code.old.items code.new.items (runs.row_code 0 (known_of known.old) row reach.Pointer behind.now)) }
    ensures known { OnOk result (known_of known.new ≡ runs.known_behind 0 (known_of known.old) reach.Pointer behind.now) }
{
    push_some(code, known.made_current(1))?;
    let operand = indirect(Change::Stay, 1, next_register(behind));
    push(code, word_instr(row, operand))?;
    known.set_current();
    Ok(())
}

fn push_word(
    code: &mut Vec<PieceItem>,
    known: &mut Known,
    row: AccOp,
    address: u16,
) -> Result<(), NoMemory>
    ensures code { OnOk result (Appends code.old.items code.new.items (runs.row_code 0 (known_of known.old) row (reach.Word address) [])) }
    ensures known { OnOk result (known_of known.new ≡ runs.known_behind 0 (known_of known.old) (reach.Word address) []) }
{
    push_some(code, known.page_load(address))?;
    let operand = Operand::Direct((address % 128) as u8);
    push(code, word_instr(row, operand))?;
    known.set_page(address);
    Ok(())
}

// A step, before others of its run.
fn push_step(
    code: &mut Vec<PieceItem>,
    known: &mut Known,
    index: u8,
    step: Step,
    behind: &[Step],
) -> Result<(), NoMemory>
    requires { IsRightStep step }
    ensures code { OnOk result (Appends code.old.items code.new.items (runs.row_code index (known_of known.old) step.row step.reach behind.now)) }
    ensures known { OnOk result (known_of known.new ≡ runs.known_behind index (known_of known.old) step.reach behind.now) }
{
    match step.reach {
        Reach::Scalar(place) => push_scalar(code, known, index, step.row, place, behind),
        Reach::Pointer => push_pointer(code, known, step.row, behind),
        Reach::Word(address) => push_word(code, known, step.row, address),
        Reach::Constant(word) => push(code, constant_instr(step.row, word)),
    }
}

fn push_steps(code: &mut Vec<PieceItem>, index: u8, steps: &[Step]) -> Result<(), NoMemory>
    requires { AreRightSteps steps.now }
    ensures { OnOk result (Appends code.old.items code.new.items (runs.steps_code index runs.nothing_known steps.now)) }
{
    let mut known = Known::nothing();
    let mut rest = steps;
    while let Some((first, behind)) = rest.split_first() {
        push_step(code, &mut known, index, *first, behind)?;
        rest = behind;
    }
    Ok(())
}

// The load of AR0, where some access is left by it.
#[tactic(auto, using(crate::proofs::Knowing::no_index))]
fn index_load(index: u8, steps: &[Step]) -> Option<Instr>
    ensures { option_to_list result ≡ runs.index_code index steps.now }
{
    if index > 1 && moves_by_index(index, steps) {
        Some(Instr::Lark {
            register: 0,
            constant: index,
        })
    } else {
        None
    }
}

#[tactic(auto, using(crate::proofs::Appending::appended, crate::proofs::Fitting::all_steps_fit))]
fn push_all_steps(code: &mut Vec<PieceItem>, index: u8, steps: &[Step]) -> Result<(), NoMemory>
    requires right { AreRightSteps steps.now }
    requires words { HaveWords steps.now }
    ensures code { OnOk result (Appends code.old.items code.new.items (runs.all_steps_code index steps.now)) }
    ensures instructions { AreInstrs (runs.all_steps_code index steps.now) }
{
    push_some(code, index_load(index, steps))?;
    push_steps(code, index, steps)
}

/// Appends the instructions of the operations at the front of a list, and gives what stands behind them. It fails only where memory is
/// wanting.
#[tactic(auto, using(crate::proofs::Appending::appended, crate::proofs::Appending::items_fit, crate::proofs::Rightness::run_right))]
pub fn append_run<'a>(
    alloc: Global,
    code: &mut Vec<PieceItem>,
    site: &Site,
    items: &'a [AccItem],
) -> Result<&'a [AccItem], NoMemory>
    requires { IsRightRun (places_of site.now) (run_at (item_list items.now)) }
    ensures code { OnOk result (Appends code.old.items code.new.items (runs.run_code (places_of site.now) (run_at (item_list items.now)))) }
    ensures behind { IfOk result (λ rest. item_list rest.now ≡ steps.behind_run (item_list items.now)) }
    ensures most { IfOk result (λ rest. length rest.now ≤ length items.now) }
    ensures shorter { run_at (item_list items.now) ≢ [] → IfOk result (λ rest. length rest.now < length items.now) }
    // Each is an instruction of the machine.
    ensures instructions { OnOk result (AreInstrs (runs.run_code (places_of site.now) (run_at (item_list items.now)))) }
    ensures fits { ItemsFit code.old.items → OnOk result (ItemsFit code.new.items) }
{
    let steps = steps_of(alloc, site, items)?;
    push_all_steps(code, site.step, &steps)?;
    Ok(behind_run(items))
}
