//! Sums and differences with constants, shifts by constants, and operators by routines.
#![tactic(auto, using(crate::proofs::ItemLemmas::item_lists))]

ghost use Rattle.std.specs.Prelude.{◌≡◌, ◌-◌, OnOk};
ghost use Rattle.acc_code.specs.AccTree.{Op, end, ◌▸◌};
ghost use Rattle.acc_code.specs.declared.operation.AccOp.TheVariants as row;
ghost use Rattle.acc_operations.specs.Appended.{Appends};
ghost use Rattle.acc_operations.specs.Sums as sums;
ghost use Rattle.acc_operations.specs.Words as word;
ghost use Rattle.acc_operations.specs.declared.constant.Constant.TheVariants as constant;

use crate::append::{bare, op, push};
use crate::constant::{Constant, negative};
use crate::found::{Found, SCRATCH_0, load, load_signed, load_unsigned, store};
use acc_code::{AccItem, AccOp, AccOperand, HelperName};
use word_base::NoMemory;

// The rows that add a small number, that take one away, and that add any word. Those of a difference do the opposite.
#[derive(Clone, Copy)]
struct SumRows {
    small: AccOp,
    opposite: AccOp,
    any: AccOp,
}

fn by_number(code: &mut Vec<AccItem>, rows: SumRows, w: u16) -> Result<(), NoMemory>
    ensures { OnOk result (Appends code.old.items code.new.items (sums.by_constant rows.small rows.opposite rows.any (constant.Number w))) }
{
    let opposite = negative(w);
    if w == 0 {
        Ok(())
    } else if w < 256 {
        op(code, rows.small, AccOperand::Number(w))
    } else if opposite < 256 {
        op(code, rows.opposite, AccOperand::Number(opposite))
    } else {
        op(code, rows.any, AccOperand::Number(w))
    }
}

fn by_constant(code: &mut Vec<AccItem>, rows: SumRows, k: Constant) -> Result<(), NoMemory>
    ensures { OnOk result (Appends code.old.items code.new.items (sums.by_constant rows.small rows.opposite rows.any k)) }
{
    match k {
        Constant::Number(w) => by_number(code, rows, w),
        Constant::Address { object, index } => {
            op(code, rows.any, AccOperand::Address { object, index })
        }
    }
}

pub(crate) fn plus(code: &mut Vec<AccItem>, k: Constant) -> Result<(), NoMemory>
    ensures { OnOk result (Appends code.old.items code.new.items (sums.plus k)) }
{
    let rows = SumRows {
        small: AccOp::Addk,
        opposite: AccOp::Subk,
        any: AccOp::Adlk { shift: 0 },
    };
    by_constant(code, rows, k)
}

pub(crate) fn minus(code: &mut Vec<AccItem>, k: Constant) -> Result<(), NoMemory>
    ensures { OnOk result (Appends code.old.items code.new.items (sums.minus k)) }
{
    let rows = SumRows {
        small: AccOp::Subk,
        opposite: AccOp::Addk,
        any: AccOp::Sblk { shift: 0 },
    };
    by_constant(code, rows, k)
}

/// An operation on the accumulator alone, so often.
pub(crate) fn repeated(code: &mut Vec<AccItem>, op: AccOp, count: u8) -> Result<(), NoMemory>
    ensures { OnOk result (Appends code.old.items code.new.items (sums.repeated count (word.bare op))) }
{
    for _turn in 0..count {
        bare(code, op)?;
    }
    Ok(())
}

/// The count of a shift. An address is never a count that has a value.
pub(crate) fn count_of(k: Constant) -> u8
    ensures { result ≡ sums.count_of k }
{
    match k {
        Constant::Number(w) => (w % 16) as u8,
        Constant::Address { .. } => 0,
    }
}

// By ones, or by a load further left.
fn moved_left(code: &mut Vec<AccItem>, f: Found, count: u8) -> Result<(), NoMemory>
    ensures { OnOk result (Appends code.old.items code.new.items (sums.moved_left f count)) }
{
    if count < 4 {
        let _high = load(code, f)?;
        repeated(code, AccOp::Sfl, count)
    } else {
        store(code, SCRATCH_0, f)?;
        op(code, AccOp::Lac { shift: count }, SCRATCH_0)
    }
}

pub(crate) fn shift_left(code: &mut Vec<AccItem>, f: Found, count: u8) -> Result<(), NoMemory>
    ensures { OnOk result (Appends code.old.items code.new.items (sums.shift_left f count)) }
{
    match f {
        Found::Held(m) => op(code, AccOp::Lac { shift: count }, m),
        Found::Fixed(_) | Found::Loaded(_) => moved_left(code, f, count),
    }
}

// Stores the high half further left, and loads it by a row.
fn reloaded(code: &mut Vec<AccItem>, shift: u8, reload: AccOp) -> Result<(), NoMemory>
    ensures { OnOk result (Appends code.old.items code.new.items (Op (row.Sach shift) (word.scratch 0) ▸ Op reload (word.scratch 0) ▸ end)) }
{
    op(code, AccOp::Sach { shift }, SCRATCH_0)?;
    op(code, reload, SCRATCH_0)
}

// All 32 bits, by a count below 16: by ones, or by a store of the high half, which `reload` loads again.
fn moved_right(code: &mut Vec<AccItem>, reload: AccOp, count: u8) -> Result<(), NoMemory>
    ensures { OnOk result (Appends code.old.items code.new.items (sums.moved_right (Op reload (word.scratch 0)) count)) }
{
    if count < 6 {
        repeated(code, AccOp::Sfr, count)
    } else if count < 9 {
        repeated(code, AccOp::Sfl, 9 - count)?;
        reloaded(code, 7, reload)
    } else {
        reloaded(code, 16u8.saturating_sub(count), reload)
    }
}

fn moved_right_signed(code: &mut Vec<AccItem>, f: Found, count: u8) -> Result<(), NoMemory>
    ensures { OnOk result (Appends code.old.items code.new.items (sums.moved_right_signed f count)) }
{
    load_signed(code, f)?;
    moved_right(code, AccOp::Lac { shift: 0 }, count)
}

// A word of memory, by a load further left.
fn loaded_right(code: &mut Vec<AccItem>, m: AccOperand, count: u8) -> Result<(), NoMemory>
    ensures { OnOk result (Appends code.old.items code.new.items (Op (row.Lac (16 - count)) m ▸ Op (row.Sach 0) (word.scratch 0) ▸ word.lac (word.scratch 0) ▸ end)) }
{
    op(
        code,
        AccOp::Lac {
            shift: 16u8.saturating_sub(count),
        },
        m,
    )?;
    reloaded(code, 0, AccOp::Lac { shift: 0 })
}

pub(crate) fn shift_right_signed(
    code: &mut Vec<AccItem>,
    f: Found,
    count: u8,
) -> Result<(), NoMemory>
    ensures { OnOk result (Appends code.old.items code.new.items (sums.shift_right_signed f count)) }
{
    match f {
        Found::Held(m) if count >= 3 => loaded_right(code, m, count),
        _ => moved_right_signed(code, f, count),
    }
}

pub(crate) fn shift_right_unsigned(
    code: &mut Vec<AccItem>,
    f: Found,
    count: u8,
) -> Result<(), NoMemory>
    ensures { OnOk result (Appends code.old.items code.new.items (sums.shift_right_unsigned f count)) }
{
    load_unsigned(code, f)?;
    moved_right(code, AccOp::Zals, count)
}

/// An operator by a routine, with both operands in their scratch words.
pub(crate) fn by_helper(code: &mut Vec<AccItem>, name: HelperName) -> Result<(), NoMemory>
    ensures { OnOk result (Appends code.old.items code.new.items (sums.by_helper name)) }
{
    push(code, AccItem::Helper(name))?;
    bare(code, AccOp::Ssxm)
}
