//! Where words are found, and how they get elsewhere.
#![tactic(auto, using(crate::proofs::ItemLemmas::item_lists))]

ghost use Rattle.std.specs.Prelude.{◌≡◌, OnOk, IfOk};
ghost use Rattle.acc_operations.specs.Appended.{Appends};
ghost use Rattle.acc_code.specs.AccTree.{end, ◌▸◌};
ghost use Rattle.acc_operations.specs.Comparisons as comparison;
ghost use Rattle.acc_operations.specs.Words as word;

use crate::append::{lac, op, sacl};
use crate::constant::{Constant, constant_high, load_constant};
use crate::high_half::HighHalf;
use acc_code::{AccItem, AccOp, AccOperand};
use word_base::NoMemory;

pub const SCRATCH_0: AccOperand = AccOperand::Scratch(0);

pub(crate) const SCRATCH_1: AccOperand = AccOperand::Scratch(1);

/// Where the word of an expression is once some items have run.
#[derive(Clone, Copy)]
pub enum Found {
    /// It is a constant.
    Fixed(Constant),
    /// It stands in a place of memory.
    Held(AccOperand),
    /// It is the low half of the accumulator.
    Loaded(HighHalf),
}

/// What is known of the high half where it is in the accumulator.
pub(crate) fn high_of(f: Found) -> HighHalf
    ensures { result ≡ word.high f }
{
    match f {
        Found::Fixed(k) => constant_high(k),
        Found::Held(_) => HighHalf::Sign,
        Found::Loaded(h) => h,
    }
}

fn bring(code: &mut Vec<AccItem>, f: Found) -> Result<(), NoMemory>
    ensures { OnOk result (Appends code.old.items code.new.items (word.load f)) }
{
    match f {
        Found::Fixed(k) => load_constant(code, k),
        Found::Held(m) => lac(code, m),
        Found::Loaded(_) => Ok(()),
    }
}

/// Brings it into the accumulator, and says what is known of the high half then.
pub fn load(code: &mut Vec<AccItem>, f: Found) -> Result<HighHalf, NoMemory>
    ensures items { OnOk result (Appends code.old.items code.new.items (word.load f)) }
    ensures high { IfOk result (λ h. h ≡ word.high f) }
{
    bring(code, f)?;
    Ok(high_of(f))
}

pub fn store(code: &mut Vec<AccItem>, m: AccOperand, f: Found) -> Result<(), NoMemory>
    ensures { OnOk result (Appends code.old.items code.new.items (word.store m f)) }
{
    let _high = load(code, f)?;
    sacl(code, m)
}

pub(crate) fn load_t(code: &mut Vec<AccItem>, f: Found) -> Result<(), NoMemory>
    ensures { OnOk result (Appends code.old.items code.new.items (word.load_t f)) }
{
    match f {
        Found::Held(m) => op(code, AccOp::Lt, m),
        Found::Fixed(_) | Found::Loaded(_) => {
            store(code, SCRATCH_0, f)?;
            op(code, AccOp::Lt, SCRATCH_0)
        }
    }
}

// The high half becomes the sign of the low one, where it isn't known to be.
fn extend(code: &mut Vec<AccItem>, h: HighHalf) -> Result<(), NoMemory>
    ensures { OnOk result (Appends code.old.items code.new.items (word.extend h)) }
{
    match h {
        HighHalf::Any | HighHalf::Zero => {
            sacl(code, SCRATCH_0)?;
            lac(code, SCRATCH_0)
        }
        HighHalf::Sign | HighHalf::Small => Ok(()),
    }
}

/// Keeps the low half, and clears the high one.
pub(crate) fn low_half(code: &mut Vec<AccItem>) -> Result<(), NoMemory>
    ensures { OnOk result (Appends code.old.items code.new.items (comparison.low_half ▸ end)) }
{
    op(code, AccOp::Andk, AccOperand::Number(65535))
}

// The high half becomes 0, where it isn't known to be.
fn clear_high(code: &mut Vec<AccItem>, h: HighHalf) -> Result<(), NoMemory>
    ensures { OnOk result (Appends code.old.items code.new.items (word.clear_high h)) }
{
    match h {
        HighHalf::Any | HighHalf::Sign => low_half(code),
        HighHalf::Zero | HighHalf::Small => Ok(()),
    }
}

// All 32 bits are 0 then where the word is.
fn clean(code: &mut Vec<AccItem>, h: HighHalf) -> Result<(), NoMemory>
    ensures { OnOk result (Appends code.old.items code.new.items (word.clean h)) }
{
    match h {
        HighHalf::Any => low_half(code),
        HighHalf::Zero | HighHalf::Sign | HighHalf::Small => Ok(()),
    }
}

/// Loads it with its sign in the high half.
pub fn load_signed(code: &mut Vec<AccItem>, f: Found) -> Result<(), NoMemory>
    ensures { OnOk result (Appends code.old.items code.new.items (word.load_signed f)) }
{
    let high = load(code, f)?;
    extend(code, high)
}

/// Loads it with 0 in the high half.
pub fn load_unsigned(code: &mut Vec<AccItem>, f: Found) -> Result<(), NoMemory>
    ensures { OnOk result (Appends code.old.items code.new.items (word.load_unsigned f)) }
{
    let high = load(code, f)?;
    clear_high(code, high)
}

/// Loads it so that all 32 bits are 0 where the word is.
pub fn load_clean(code: &mut Vec<AccItem>, f: Found) -> Result<(), NoMemory>
    ensures { OnOk result (Appends code.old.items code.new.items (word.load_clean f)) }
{
    let high = load(code, f)?;
    clean(code, high)
}
