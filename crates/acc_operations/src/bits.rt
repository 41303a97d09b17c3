//! Operations on bits.
#![tactic(auto, using(crate::proofs::ItemLemmas::item_lists))]

ghost use Rattle.std.specs.Prelude.{◌≡◌, OnOk, IfOk};
ghost use Rattle.acc_operations.specs.Appended.{Appends};
ghost use Rattle.acc_operations.specs.Arithmetic as arithmetic;

use crate::append::op;
use crate::constant::{Constant, operand_of};
use crate::found::{Found, load};
use crate::high_half::HighHalf;
use crate::operation::Bitwise;
use acc_code::{AccItem, AccOp, AccOperand};
use word_base::NoMemory;

fn row_on_place(o: Bitwise) -> AccOp
    ensures { result ≡ arithmetic.row_on_place o }
{
    match o {
        Bitwise::And => AccOp::And,
        Bitwise::Or => AccOp::Or,
        Bitwise::Xor => AccOp::Xor,
    }
}

fn row_on_constant(o: Bitwise) -> AccOp
    ensures { result ≡ arithmetic.row_on_constant o }
{
    match o {
        Bitwise::And => AccOp::Andk,
        Bitwise::Or => AccOp::Ork,
        Bitwise::Xor => AccOp::Xork,
    }
}

// What is known of the high half behind a row that leaves it.
fn kept_zero(h: HighHalf) -> HighHalf
    ensures { result ≡ arithmetic.kept_zero h }
{
    match h {
        HighHalf::Zero | HighHalf::Small => HighHalf::Zero,
        HighHalf::Any | HighHalf::Sign => HighHalf::Any,
    }
}

fn high_with_place(o: Bitwise, h: HighHalf) -> HighHalf
    ensures { result ≡ arithmetic.high_with_place o h }
{
    match o {
        Bitwise::And => HighHalf::Zero,
        Bitwise::Or | Bitwise::Xor => kept_zero(h),
    }
}

fn masked_by(k: Constant) -> HighHalf
    ensures { result ≡ arithmetic.masked_by k }
{
    match k {
        Constant::Number(w) if w < 32768 => HighHalf::Small,
        _ => HighHalf::Zero,
    }
}

fn high_with_constant(o: Bitwise, k: Constant, h: HighHalf) -> HighHalf
    ensures { result ≡ arithmetic.high_with_constant o k h }
{
    match o {
        Bitwise::And => masked_by(k),
        Bitwise::Or | Bitwise::Xor => kept_zero(h),
    }
}

pub(crate) fn on_bits_of_place(
    code: &mut Vec<AccItem>,
    o: Bitwise,
    f: Found,
    m: AccOperand,
) -> Result<Found, NoMemory>
    ensures items { OnOk result (Appends code.old.items code.new.items (arithmetic.on_bits_of_place o f m).items) }
    ensures found { IfOk result (λ w. w ≡ (arithmetic.on_bits_of_place o f m).found) }
{
    let high = load(code, f)?;
    op(code, row_on_place(o), m)?;
    Ok(Found::Loaded(high_with_place(o, high)))
}

pub(crate) fn on_bits_of_constant(
    code: &mut Vec<AccItem>,
    o: Bitwise,
    f: Found,
    k: Constant,
) -> Result<Found, NoMemory>
    ensures items { OnOk result (Appends code.old.items code.new.items (arithmetic.on_bits_of_constant o f k).items) }
    ensures found { IfOk result (λ w. w ≡ (arithmetic.on_bits_of_constant o f k).found) }
{
    let high = load(code, f)?;
    op(code, row_on_constant(o), operand_of(k))?;
    Ok(Found::Loaded(high_with_constant(o, k, high)))
}
