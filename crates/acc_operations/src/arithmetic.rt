//! Operations on two words that give a word.
#![tactic(auto, using(crate::proofs::ItemLemmas::item_lists))]

ghost use Rattle.std.specs.Prelude.{◌≡◌, true, false, OnOk, IfOk};
ghost use Rattle.acc_code.specs.AccTree.{Op, end, ◌▸◌, ◌⧺◌};
ghost use Rattle.acc_code.specs.declared.operation.AccOp.TheVariants as row;
ghost use Rattle.acc_operations.specs.Appended.{Appends};
ghost use Rattle.acc_operations.specs.Arithmetic as arithmetic;
ghost use Rattle.acc_operations.specs.Sums as sums;
ghost use Rattle.acc_operations.specs.Words as word;
ghost use Rattle.acc_operations.specs.declared.found.Found.TheVariants as found;
ghost use Rattle.acc_operations.specs.declared.high_half.HighHalf.TheVariants as high;
ghost use Rattle.acc_operations.specs.declared.operation.Arithmetic.TheVariants.{LeftShift};

use crate::append::{bare, op};
use crate::bits::{on_bits_of_constant, on_bits_of_place};
use crate::constant::Constant;
use crate::found::{Found, SCRATCH_0, SCRATCH_1, load, store};
use crate::high_half::HighHalf;
use crate::operation::Arithmetic;
use crate::products::{multiply, product_with_constant, product_with_place};
use crate::sums::{
    by_helper, count_of, minus, plus, shift_left, shift_right_signed, shift_right_unsigned,
};
use acc_code::{AccItem, AccOp, AccOperand, HelperName};
use word_base::NoMemory;

// A word in the accumulator of whose high half nothing is known.
const ANY: Found = Found::Loaded(HighHalf::Any);

fn shift_helper(signed: bool) -> HelperName
    ensures { result ≡ arithmetic.shift_helper signed }
{
    if signed {
        HelperName::ShrInt
    } else {
        HelperName::ShrUnsigned
    }
}

fn division_helper(signed: bool) -> HelperName
    ensures { result ≡ arithmetic.division_helper signed }
{
    if signed {
        HelperName::DivInt
    } else {
        HelperName::DivUnsigned
    }
}

fn remainder_helper(signed: bool) -> HelperName
    ensures { result ≡ arithmetic.remainder_helper signed }
{
    if signed {
        HelperName::RemInt
    } else {
        HelperName::RemUnsigned
    }
}

// Hands the left word and then the right one to a routine. The right one isn't in the accumulator.
fn helped(
    code: &mut Vec<AccItem>,
    name: HelperName,
    left: Found,
    right: Found,
) -> Result<Found, NoMemory>
    ensures items { OnOk result (Appends code.old.items code.new.items (word.store (word.scratch 0) left ⧺ word.store (word.scratch 1) right ⧺ sums.by_helper name)) }
    ensures found { IfOk result (λ w. w ≡ found.Loaded high.Any) }
{
    store(code, SCRATCH_0, left)?;
    store(code, SCRATCH_1, right)?;
    by_helper(code, name)?;
    Ok(ANY)
}

// Hands the right word and then the left one to a routine. The left one isn't in the accumulator.
fn helped_behind(
    code: &mut Vec<AccItem>,
    name: HelperName,
    left: Found,
    right: Found,
) -> Result<Found, NoMemory>
    ensures items { OnOk result (Appends code.old.items code.new.items (word.store (word.scratch 1) right ⧺ word.store (word.scratch 0) left ⧺ sums.by_helper name)) }
    ensures found { IfOk result (λ w. w ≡ found.Loaded high.Any) }
{
    store(code, SCRATCH_1, right)?;
    store(code, SCRATCH_0, left)?;
    by_helper(code, name)?;
    Ok(ANY)
}

// A row on a word of memory behind the load of another word.
fn row_behind(
    code: &mut Vec<AccItem>,
    f: Found,
    row: AccOp,
    m: AccOperand,
) -> Result<Found, NoMemory>
    ensures items { OnOk result (Appends code.old.items code.new.items (word.load f ⧺ Op row m ▸ end)) }
    ensures found { IfOk result (λ w. w ≡ found.Loaded high.Any) }
{
    let _high = load(code, f)?;
    op(code, row, m)?;
    Ok(ANY)
}

// A word, shifted left by the count in a place.
fn shifted_by_place(code: &mut Vec<AccItem>, f: Found, m: AccOperand) -> Result<Found, NoMemory>
    ensures items { OnOk result (Appends code.old.items code.new.items (arithmetic.with_place LeftShift f m).items) }
    ensures found { IfOk result (λ w. w ≡ found.Loaded high.Any) }
{
    store(code, SCRATCH_0, f)?;
    op(code, AccOp::Lt, m)?;
    op(code, AccOp::Lact, SCRATCH_0)?;
    Ok(ANY)
}

/// The right operand is the word of a name.
pub fn with_place(
    code: &mut Vec<AccItem>,
    o: Arithmetic,
    f: Found,
    m: AccOperand,
) -> Result<Found, NoMemory>
    ensures items { OnOk result (Appends code.old.items code.new.items (arithmetic.with_place o f m).items) }
    ensures found { IfOk result (λ w. w ≡ (arithmetic.with_place o f m).found) }
{
    let right = Found::Held(m);
    match o {
        Arithmetic::Sum => row_behind(code, f, AccOp::Add { shift: 0 }, m),
        Arithmetic::Difference => row_behind(code, f, AccOp::Sub { shift: 0 }, m),
        Arithmetic::Bits(bits) => on_bits_of_place(code, bits, f, m),
        Arithmetic::Product => {
            product_with_place(code, f, m)?;
            Ok(ANY)
        }
        Arithmetic::LeftShift => shifted_by_place(code, f, m),
        Arithmetic::RightShift { signed } => helped(code, shift_helper(signed), f, right),
        Arithmetic::Quotient { signed } => helped(code, division_helper(signed), f, right),
        Arithmetic::Remainder { signed } => helped(code, remainder_helper(signed), f, right),
    }
}

fn sum_with_constant(code: &mut Vec<AccItem>, f: Found, k: Constant) -> Result<Found, NoMemory>
    ensures items { OnOk result (Appends code.old.items code.new.items (word.load f ⧺ sums.plus k)) }
    ensures found { IfOk result (λ w. w ≡ found.Loaded high.Any) }
{
    let _high = load(code, f)?;
    plus(code, k)?;
    Ok(ANY)
}

fn difference_with_constant(
    code: &mut Vec<AccItem>,
    f: Found,
    k: Constant,
) -> Result<Found, NoMemory>
    ensures items { OnOk result (Appends code.old.items code.new.items (word.load f ⧺ sums.minus k)) }
    ensures found { IfOk result (λ w. w ≡ found.Loaded high.Any) }
{
    let _high = load(code, f)?;
    minus(code, k)?;
    Ok(ANY)
}

fn shifted_right_signed(code: &mut Vec<AccItem>, f: Found, count: u8) -> Result<Found, NoMemory>
    ensures items { OnOk result (Appends code.old.items code.new.items (arithmetic.shifted_right true f count).items) }
    ensures found { IfOk result (λ w. w ≡ (arithmetic.shifted_right true f count).found) }
{
    shift_right_signed(code, f, count)?;
    Ok(Found::Loaded(HighHalf::Sign))
}

fn shifted_right_unsigned(code: &mut Vec<AccItem>, f: Found, count: u8) -> Result<Found, NoMemory>
    ensures items { OnOk result (Appends code.old.items code.new.items (arithmetic.shifted_right false f count).items) }
    ensures found { IfOk result (λ w. w ≡ (arithmetic.shifted_right false f count).found) }
{
    shift_right_unsigned(code, f, count)?;
    let high = if count == 0 {
        HighHalf::Zero
    } else {
        HighHalf::Small
    };
    Ok(Found::Loaded(high))
}

fn shifted_right(
    code: &mut Vec<AccItem>,
    signed: bool,
    f: Found,
    count: u8,
) -> Result<Found, NoMemory>
    ensures items { OnOk result (Appends code.old.items code.new.items (arithmetic.shifted_right signed f count).items) }
    ensures found { IfOk result (λ w. w ≡ (arithmetic.shifted_right signed f count).found) }
{
    if signed {
        shifted_right_signed(code, f, count)
    } else {
        shifted_right_unsigned(code, f, count)
    }
}

/// The right operand is a constant.
pub fn with_constant(
    code: &mut Vec<AccItem>,
    o: Arithmetic,
    f: Found,
    k: Constant,
) -> Result<Found, NoMemory>
    ensures items { OnOk result (Appends code.old.items code.new.items (arithmetic.with_constant o f k).items) }
    ensures found { IfOk result (λ w. w ≡ (arithmetic.with_constant o f k).found) }
{
    let right = Found::Fixed(k);
    match o {
        Arithmetic::Sum => sum_with_constant(code, f, k),
        Arithmetic::Difference => difference_with_constant(code, f, k),
        Arithmetic::Bits(bits) => on_bits_of_constant(code, bits, f, k),
        Arithmetic::Product => {
            product_with_constant(code, f, k)?;
            Ok(ANY)
        }
        Arithmetic::LeftShift => {
            shift_left(code, f, count_of(k))?;
            Ok(ANY)
        }
        Arithmetic::RightShift { signed } => shifted_right(code, signed, f, count_of(k)),
        Arithmetic::Quotient { signed } => helped(code, division_helper(signed), f, right),
        Arithmetic::Remainder { signed } => helped(code, remainder_helper(signed), f, right),
    }
}

fn constant_less(code: &mut Vec<AccItem>, k: Constant, f: Found) -> Result<Found, NoMemory>
    ensures items { OnOk result (Appends code.old.items code.new.items (word.load f ⧺ word.bare row.Neg ▸ sums.plus k)) }
    ensures found { IfOk result (λ w. w ≡ found.Loaded high.Any) }
{
    let _high = load(code, f)?;
    bare(code, AccOp::Neg)?;
    plus(code, k)?;
    Ok(ANY)
}

// A count goes to T. `Lact` shifts a load by it.
fn count_to_t(code: &mut Vec<AccItem>, f: Found) -> Result<(), NoMemory>
    ensures { OnOk result (Appends code.old.items code.new.items (word.store (word.scratch 0) f ⧺ Op row.Lt (word.scratch 0) ▸ end)) }
{
    store(code, SCRATCH_0, f)?;
    op(code, AccOp::Lt, SCRATCH_0)
}

// A constant, shifted left by a count that was computed.
fn shifted_constant(code: &mut Vec<AccItem>, k: Constant, f: Found) -> Result<Found, NoMemory>
    ensures items { OnOk result (Appends code.old.items code.new.items (arithmetic.of_constant LeftShift k f).items) }
    ensures found { IfOk result (λ w. w ≡ found.Loaded high.Any) }
{
    count_to_t(code, f)?;
    store(code, SCRATCH_0, Found::Fixed(k))?;
    op(code, AccOp::Lact, SCRATCH_0)?;
    Ok(ANY)
}

/// The left operand is a constant, and the right one was computed.
pub fn of_constant(
    code: &mut Vec<AccItem>,
    o: Arithmetic,
    k: Constant,
    f: Found,
) -> Result<Found, NoMemory>
    ensures items { OnOk result (Appends code.old.items code.new.items (arithmetic.of_constant o k f).items) }
    ensures found { IfOk result (λ w. w ≡ (arithmetic.of_constant o k f).found) }
{
    let left = Found::Fixed(k);
    match o {
        Arithmetic::Sum => sum_with_constant(code, f, k),
        Arithmetic::Difference => constant_less(code, k, f),
        Arithmetic::Bits(bits) => on_bits_of_constant(code, bits, f, k),
        Arithmetic::Product => {
            product_with_constant(code, f, k)?;
            Ok(ANY)
        }
        Arithmetic::LeftShift => shifted_constant(code, k, f),
        Arithmetic::RightShift { signed } => helped_behind(code, shift_helper(signed), left, f),
        Arithmetic::Quotient { signed } => helped_behind(code, division_helper(signed), left, f),
        Arithmetic::Remainder { signed } => helped_behind(code, remainder_helper(signed), left, f),
    }
}

fn place_less(code: &mut Vec<AccItem>, m: AccOperand, f: Found) -> Result<Found, NoMemory>
    ensures items { OnOk result (Appends code.old.items code.new.items (word.load f ⧺ Op (row.Sub 0) m ▸ word.bare row.Neg ▸ end)) }
    ensures found { IfOk result (λ w. w ≡ found.Loaded high.Any) }
{
    let _high = load(code, f)?;
    op(code, AccOp::Sub { shift: 0 }, m)?;
    bare(code, AccOp::Neg)?;
    Ok(ANY)
}

// The word of a place, shifted left by a count that was computed.
fn shifted_place(code: &mut Vec<AccItem>, m: AccOperand, f: Found) -> Result<Found, NoMemory>
    ensures items { OnOk result (Appends code.old.items code.new.items (arithmetic.of_place LeftShift m f).items) }
    ensures found { IfOk result (λ w. w ≡ found.Loaded high.Any) }
{
    count_to_t(code, f)?;
    op(code, AccOp::Lact, m)?;
    Ok(ANY)
}

/// The left operand was stored to a place, and the right one was computed.
pub fn of_place(
    code: &mut Vec<AccItem>,
    o: Arithmetic,
    m: AccOperand,
    f: Found,
) -> Result<Found, NoMemory>
    ensures items { OnOk result (Appends code.old.items code.new.items (arithmetic.of_place o m f).items) }
    ensures found { IfOk result (λ w. w ≡ (arithmetic.of_place o m f).found) }
{
    let left = Found::Held(m);
    match o {
        Arithmetic::Sum => row_behind(code, f, AccOp::Add { shift: 0 }, m),
        Arithmetic::Difference => place_less(code, m, f),
        Arithmetic::Bits(bits) => on_bits_of_place(code, bits, f, m),
        Arithmetic::Product => {
            multiply(code, f, m)?;
            Ok(ANY)
        }
        Arithmetic::LeftShift => shifted_place(code, m, f),
        Arithmetic::RightShift { signed } => helped_behind(code, shift_helper(signed), left, f),
        Arithmetic::Quotient { signed } => helped_behind(code, division_helper(signed), left, f),
        Arithmetic::Remainder { signed } => helped_behind(code, remainder_helper(signed), left, f),
    }
}
