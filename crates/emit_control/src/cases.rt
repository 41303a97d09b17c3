//! The dispatch of a switch.
ghost use Rattle.std.specs.Prelude.{◌≡◌, [], OnOk, IfOk};
ghost use Rattle.c25_code.specs.Items.{plain_items};
ghost use Rattle.emit_control.specs.Cuts as cuts;
ghost use Rattle.emit_control.specs.Cuts.{naming};
ghost use Rattle.emit_control.specs.Emits as emits;
ghost use Rattle.emit_control.specs.Emits.{Adds, CasesGoOn, Puts, state_of};
ghost use Rattle.emit_control.specs.Entries as entries;
ghost use Rattle.emit_control.specs.Settings as settings;

use crate::code::Code;
use crate::items::push_instr;
use crate::ways::label;
use acc_code::CaseLabel;
use c25_isa::{Instr, JumpOp, PieceItem};
use word_base::NoMemory;

// Takes a number from the accumulator, on all 32 bits and in either mode.
#[tactic(auto, using(crate::proofs::Appending::put))]
fn take_away(items: &mut Vec<PieceItem>, n: u16) -> Result<(), NoMemory>
    ensures { OnOk result (Puts items.old.items (plain_items (cuts.taken_away n)) items.new.items) }
{
    if n == 0 {
        return Ok(());
    }
    if n < 256 {
        return push_instr(items, Instr::Subk(n as u8));
    }
    if n < 32768 {
        return push_instr(items, Instr::Sblk { shift: 0, word: n });
    }
    push_instr(
        items,
        Instr::Sblk {
            shift: 1,
            word: n / 2,
        },
    )?;
    if n % 2 == 0 {
        Ok(())
    } else {
        push_instr(items, Instr::Subk(1))
    }
}

// Adds one to it.
#[tactic(auto, using(crate::proofs::Appending::put))]
fn add(items: &mut Vec<PieceItem>, n: u16) -> Result<(), NoMemory>
    ensures { OnOk result (Puts items.old.items (plain_items (cuts.added n)) items.new.items) }
{
    if n < 256 {
        return push_instr(items, Instr::Addk(n as u8));
    }
    if n < 32768 {
        return push_instr(items, Instr::Adlk { shift: 0, word: n });
    }
    push_instr(
        items,
        Instr::Adlk {
            shift: 1,
            word: n / 2,
        },
    )?;
    if n % 2 == 0 {
        Ok(())
    } else {
        push_instr(items, Instr::Addk(1))
    }
}

// From a word less one number to the word less another one.
fn push_less_by(items: &mut Vec<PieceItem>, before: u16, n: u16) -> Result<(), NoMemory>
    ensures { OnOk result (Puts items.old.items (plain_items (cuts.less_by before n)) items.new.items) }
{
    if before <= n {
        take_away(items, n - before)
    } else {
        add(items, before - n)
    }
}

// Where control goes for a word that no case has.
fn default_label(cases: &[CaseLabel], first: u32, behind: u32) -> Result<u32, NoMemory>
    ensures { IfOk result (λ l. l ≡ cuts.default_label cases.now first behind) }
{
    let mut rest = cases;
    let mut own = first;
    while let Some((case, more)) = rest.split_first() {
        match case {
            CaseLabel::Default => return Ok(own),
            CaseLabel::Value(_) => {
                own = label(own, 1)?;
                rest = more;
            }
        }
    }
    Ok(behind)
}

// The jump of a case, by what is taken away so far. Gives what is taken away behind it.
#[tactic(auto, using(crate::proofs::Appending::put))]
fn push_case(code: &mut Code, case: CaseLabel, own: u32, before: u16) -> Result<u16, NoMemory>
    ensures puts { OnOk result (Puts code.old.items.items (emits.case_code case own before) code.new.items.items) }
    ensures state { OnOk result (state_of code.new ≡ naming own (state_of code.old)) }
    ensures taken { IfOk result (λ n. n ≡ emits.taken_behind case before) }
{
    match case {
        CaseLabel::Value(value) => {
            push_less_by(&mut code.items, before, value)?;
            code.jump(JumpOp::Bz, own)?;
            Ok(value)
        }
        CaseLabel::Default => {
            code.named.add(own)?;
            Ok(before)
        }
    }
}

// The jumps of cases, whose labels are numbered from one on.
fn push_cases(code: &mut Code, cases: &[CaseLabel], first: u32) -> Result<(), NoMemory>
    ensures { OnOk result (CasesGoOn code.old cases.now first 0 code.new [] 0 0) }
{
    let mut rest = cases;
    let mut own = first;
    let mut before = 0;
    while let Some((case, more)) = rest.split_first() {
        before = push_case(code, *case, own, before)?;
        own = label(own, 1)?;
        rest = more;
    }
    Ok(())
}

/// Goes on at the label of the word in the accumulator: labels of cases are numbered from one on. Without a default there is one behind.
pub(crate) fn dispatch(
    code: &mut Code,
    cases: &[CaseLabel],
    first: u32,
    behind: u32,
) -> Result<(), NoMemory>
    ensures { OnOk result ((m : settings.Setting) → Adds m code.old (entries.Dispatch cases.now first behind) code.new) }
{
    let other = default_label(cases, first, behind)?;
    push_cases(code, cases, first)?;
    code.goto(other)
}
