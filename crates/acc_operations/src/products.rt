//! Products.
#![tactic(auto, using(crate::proofs::ItemLemmas::item_lists))]

ghost use Rattle.std.specs.Prelude.{◌≡◌, OnOk};
ghost use Rattle.acc_code.specs.AccTree.{Op, end, ◌▸◌, ◌⧺◌};
ghost use Rattle.acc_code.specs.Operands as operands;
ghost use Rattle.acc_code.specs.declared.operand.AccOperand.TheVariants as operand;
ghost use Rattle.acc_code.specs.declared.operation.AccOp.TheVariants as row;
ghost use Rattle.acc_operations.specs.Appended.{Appends};
ghost use Rattle.acc_operations.specs.Arithmetic as arithmetic;
ghost use Rattle.acc_operations.specs.Words as word;
ghost use Rattle.acc_operations.specs.declared.found.Found.TheVariants.{Fixed};

use crate::append::{bare, op};
use crate::constant::Constant;
use crate::found::{Found, SCRATCH_0, load_t, store};
use acc_code::{AccItem, AccOp, AccOperand};
use word_base::NoMemory;

// Whether a word with a sign is from -4096 to 4095.
fn has_13_bits(w: u16) -> bool
    ensures { result ≡ operands.has_13_bits w }
{
    w < 4096 || w > 61439
}

// T times a word of memory.
fn times_place(code: &mut Vec<AccItem>, m: AccOperand) -> Result<(), NoMemory>
    ensures { OnOk result (Appends code.old.items code.new.items (arithmetic.times_place m)) }
{
    op(code, AccOp::Mpy, m)?;
    bare(code, AccOp::Pac)
}

// T times a number of 13 bits.
fn times_number(code: &mut Vec<AccItem>, w: u16) -> Result<(), NoMemory>
    ensures { OnOk result (Appends code.old.items code.new.items (Op row.Mpyk (operand.Number w) ▸ word.bare row.Pac ▸ end)) }
{
    op(code, AccOp::Mpyk, AccOperand::Number(w))?;
    bare(code, AccOp::Pac)
}

// T times a constant.
fn times(code: &mut Vec<AccItem>, k: Constant) -> Result<(), NoMemory>
    ensures { OnOk result (Appends code.old.items code.new.items (arithmetic.times k)) }
{
    match k {
        Constant::Number(w) if has_13_bits(w) => times_number(code, w),
        _ => times_stored(code, k),
    }
}

fn times_stored(code: &mut Vec<AccItem>, k: Constant) -> Result<(), NoMemory>
    ensures { OnOk result (Appends code.old.items code.new.items (word.store (word.scratch 0) (Fixed k) ⧺ arithmetic.times_place (word.scratch 0))) }
{
    store(code, SCRATCH_0, Found::Fixed(k))?;
    times_place(code, SCRATCH_0)
}

pub(crate) fn multiply(code: &mut Vec<AccItem>, f: Found, m: AccOperand) -> Result<(), NoMemory>
    ensures { OnOk result (Appends code.old.items code.new.items (arithmetic.multiply f m)) }
{
    load_t(code, f)?;
    times_place(code, m)
}

// A product of a word of memory and a number of 13 bits.
fn place_times_number(code: &mut Vec<AccItem>, m: AccOperand, w: u16) -> Result<(), NoMemory>
    ensures { OnOk result (Appends code.old.items code.new.items (Op row.Lt m ▸ Op row.Mpyk (operand.Number w) ▸ word.bare row.Pac ▸ end)) }
{
    op(code, AccOp::Lt, m)?;
    times_number(code, w)
}

pub(crate) fn product_with_place(
    code: &mut Vec<AccItem>,
    f: Found,
    m: AccOperand,
) -> Result<(), NoMemory>
    ensures { OnOk result (Appends code.old.items code.new.items (arithmetic.product_with_place f m)) }
{
    match f {
        Found::Fixed(Constant::Number(w)) if has_13_bits(w) => place_times_number(code, m, w),
        _ => multiply(code, f, m),
    }
}

pub(crate) fn product_with_constant(
    code: &mut Vec<AccItem>,
    f: Found,
    k: Constant,
) -> Result<(), NoMemory>
    ensures { OnOk result (Appends code.old.items code.new.items (word.load_t f ⧺ arithmetic.times k)) }
{
    load_t(code, f)?;
    times(code, k)
}
