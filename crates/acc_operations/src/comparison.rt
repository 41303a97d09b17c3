//! Comparisons of words.
#![tactic(auto, using(crate::proofs::ItemLemmas::item_lists))]

ghost use Rattle.std.specs.Prelude.{◌≡◌, ◌/◌, ◌%◌, ◌==◌, if◌then◌else◌, OnOk, IfOk};
ghost use Rattle.acc_code.specs.AccTree.{Op, end, ◌▸◌, ◌⧺◌};
ghost use Rattle.acc_code.specs.declared.operand.AccOperand.TheVariants as operand;
ghost use Rattle.acc_code.specs.declared.operation.AccOp.TheVariants as row;
ghost use Rattle.acc_operations.specs.Appended.{Appends};
ghost use Rattle.acc_operations.specs.Comparisons as comparison;
ghost use Rattle.acc_operations.specs.Kinds as kinds;
ghost use Rattle.acc_operations.specs.Sums as sums;
ghost use Rattle.acc_operations.specs.Words as word;
ghost use Rattle.acc_operations.specs.declared.comparison.Order.TheVariants.{Exact, Signed, Unsigned};
ghost use Rattle.acc_operations.specs.declared.constant.Constant.TheVariants as constant;
ghost use Rattle.acc_operations.specs.declared.high_half.HighHalf.TheVariants.{Zero};

use crate::append::{lac, op};
use crate::constant::Constant;
use crate::found::{
    Found, SCRATCH_0, high_of, load, load_clean, load_signed, load_unsigned, low_half, store,
};
use crate::high_half::HighHalf;
use crate::sums::minus;
use acc_code::{AccItem, AccOp, AccOperand, Test};
use c_tree::VarRef;
use word_base::NoMemory;

/// How words are compared.
#[derive(Clone, Copy)]
pub enum Order {
    /// Whether they are equal.
    Exact,
    /// As numbers with a sign.
    Signed,
    /// As numbers without a sign.
    Unsigned,
}

/// A comparison: it holds where the test holds of the left word less the right one.
#[derive(Clone, Copy)]
pub struct Comparison {
    pub order: Order,
    pub test: Test,
}

/// The test where the comparison doesn't hold.
pub(crate) fn opposite(t: Test) -> Test
    ensures { result ≡ kinds.opposite t }
{
    match t {
        Test::Gz => Test::Lez,
        Test::Lez => Test::Gz,
        Test::Lz => Test::Gez,
        Test::Gez => Test::Lz,
        Test::Nz => Test::Z,
        Test::Z => Test::Nz,
    }
}

/// The test of a truth of this sense.
pub fn in_sense(sense: bool, t: Test) -> Test
    ensures { result ≡ kinds.in_sense sense t }
{
    if sense { t } else { opposite(t) }
}

// The test where left and right have changed places.
fn swapped(t: Test) -> Test
    ensures { result ≡ kinds.swapped t }
{
    match t {
        Test::Gz => Test::Lz,
        Test::Lez => Test::Gez,
        Test::Lz => Test::Gz,
        Test::Gez => Test::Lez,
        Test::Nz => Test::Nz,
        Test::Z => Test::Z,
    }
}

fn swapped_comparison(c: Comparison) -> Comparison
    ensures { result ≡ kinds.swapped_comparison c }
{
    Comparison {
        order: c.order,
        test: swapped(c.test),
    }
}

fn sub(code: &mut Vec<AccItem>, m: AccOperand) -> Result<(), NoMemory>
    ensures { OnOk result (Appends code.old.items code.new.items (comparison.sub m ▸ end)) }
{
    op(code, AccOp::Sub { shift: 0 }, m)
}

fn subs(code: &mut Vec<AccItem>, m: AccOperand) -> Result<(), NoMemory>
    ensures { OnOk result (Appends code.old.items code.new.items (comparison.subs m ▸ end)) }
{
    op(code, AccOp::Subs, m)
}

// The accumulator less a word of memory: all bits are 0 exactly where the words are equal.
fn exactly_less(code: &mut Vec<AccItem>, h: HighHalf, m: AccOperand) -> Result<(), NoMemory>
    ensures { OnOk result (Appends code.old.items code.new.items (comparison.exactly_less h m)) }
{
    match h {
        HighHalf::Zero => subs(code, m),
        HighHalf::Sign | HighHalf::Small => sub(code, m),
        HighHalf::Any => {
            sub(code, m)?;
            low_half(code)
        }
    }
}

// Less a constant, with the high half cleared.
fn less_low_half(code: &mut Vec<AccItem>, k: Constant) -> Result<(), NoMemory>
    ensures { OnOk result (Appends code.old.items code.new.items (sums.minus k ⧺ comparison.low_half ▸ end)) }
{
    minus(code, k)?;
    low_half(code)
}

// Where the high half is 0, less a number that isn't 0: all bits are 0 exactly where the words are equal.
fn less_or_other(code: &mut Vec<AccItem>, w: u16) -> Result<(), NoMemory>
    ensures { OnOk result (Appends code.old.items code.new.items (comparison.exactly_less_number Zero w)) }
{
    let row = if w < 256 { AccOp::Subk } else { AccOp::Xork };
    op(code, row, AccOperand::Number(w))
}

// Less a constant that isn't 0: all bits are 0 exactly where the words are equal.
fn exactly_less_constant(code: &mut Vec<AccItem>, h: HighHalf, k: Constant) -> Result<(), NoMemory>
    ensures { OnOk result (Appends code.old.items code.new.items (comparison.exactly_less_constant h k)) }
{
    match (h, k) {
        (HighHalf::Sign | HighHalf::Small, _) => minus(code, k),
        (HighHalf::Zero, Constant::Number(w)) => less_or_other(code, w),
        (HighHalf::Zero | HighHalf::Any, _) => less_low_half(code, k),
    }
}

// A word and a constant that isn't 0, as far as all bits are 0 exactly where they are equal.
fn exact_with_other(code: &mut Vec<AccItem>, f: Found, k: Constant) -> Result<(), NoMemory>
    ensures { OnOk result (Appends code.old.items code.new.items (word.load f ⧺ comparison.exactly_less_constant (word.high f) k)) }
{
    let high = load(code, f)?;
    exactly_less_constant(code, high, k)
}

// A word and a constant, as far as all bits are 0 exactly where they are equal.
fn exact_with(code: &mut Vec<AccItem>, f: Found, k: Constant) -> Result<(), NoMemory>
    ensures { OnOk result (Appends code.old.items code.new.items (comparison.exact_with f k)) }
{
    match k {
        Constant::Number(0) => load_clean(code, f),
        _ => exact_with_other(code, f, k),
    }
}

// Less a number of 8000h or more, by its half.
fn less_large(code: &mut Vec<AccItem>, w: u16) -> Result<(), NoMemory>
    ensures { OnOk result (Appends code.old.items code.new.items (Op (row.Sblk 1) (operand.Number (w / 2)) ▸ (if w % 2 == 0 then end else Op row.Subk (operand.Number 1) ▸ end))) }
{
    op(code, AccOp::Sblk { shift: 1 }, AccOperand::Number(w / 2))?;
    if w % 2 == 0 {
        Ok(())
    } else {
        op(code, AccOp::Subk, AccOperand::Number(1))
    }
}

// Less a number without a sign, which as a word with a sign would be negative from 8000h on.
fn less_unsigned(code: &mut Vec<AccItem>, w: u16) -> Result<(), NoMemory>
    ensures { OnOk result (Appends code.old.items code.new.items (comparison.less_unsigned w)) }
{
    if w == 0 {
        Ok(())
    } else if w < 256 {
        op(code, AccOp::Subk, AccOperand::Number(w))
    } else if w < 32768 {
        op(code, AccOp::Sblk { shift: 0 }, AccOperand::Number(w))
    } else {
        less_large(code, w)
    }
}

fn signed_with_place(code: &mut Vec<AccItem>, f: Found, m: AccOperand) -> Result<(), NoMemory>
    ensures { OnOk result (Appends code.old.items code.new.items (comparison.items_with_place Signed f m)) }
{
    load_signed(code, f)?;
    sub(code, m)
}

fn unsigned_with_place(code: &mut Vec<AccItem>, f: Found, m: AccOperand) -> Result<(), NoMemory>
    ensures { OnOk result (Appends code.old.items code.new.items (comparison.items_with_place Unsigned f m)) }
{
    load_unsigned(code, f)?;
    subs(code, m)
}

fn exact_with_place(code: &mut Vec<AccItem>, f: Found, m: AccOperand) -> Result<(), NoMemory>
    ensures { OnOk result (Appends code.old.items code.new.items (comparison.items_with_place Exact f m)) }
{
    let high = load(code, f)?;
    exactly_less(code, high, m)
}

fn items_with_place(
    code: &mut Vec<AccItem>,
    order: Order,
    f: Found,
    m: AccOperand,
) -> Result<(), NoMemory>
    ensures { OnOk result (Appends code.old.items code.new.items (comparison.items_with_place order f m)) }
{
    match order {
        Order::Exact => exact_with_place(code, f, m),
        Order::Signed => signed_with_place(code, f, m),
        Order::Unsigned => unsigned_with_place(code, f, m),
    }
}

/// The right word is that of a place of memory.
pub fn compared_with_place(
    code: &mut Vec<AccItem>,
    c: Comparison,
    f: Found,
    m: AccOperand,
) -> Result<Test, NoMemory>
    ensures items { OnOk result (Appends code.old.items code.new.items (comparison.compared_with_place c f m).items) }
    ensures test { IfOk result (λ t. t ≡ (comparison.compared_with_place c f m).test) }
{
    items_with_place(code, c.order, f, m)?;
    Ok(c.test)
}

fn signed_with_constant(code: &mut Vec<AccItem>, f: Found, k: Constant) -> Result<(), NoMemory>
    ensures { OnOk result (Appends code.old.items code.new.items (comparison.items_with_constant Signed f k)) }
{
    load_signed(code, f)?;
    minus(code, k)
}

fn unsigned_with_number(code: &mut Vec<AccItem>, f: Found, w: u16) -> Result<(), NoMemory>
    ensures { OnOk result (Appends code.old.items code.new.items (comparison.items_with_constant Unsigned f (constant.Number w))) }
{
    load_unsigned(code, f)?;
    less_unsigned(code, w)
}

// An address without a sign is loaded behind the other word, so the two change places.
fn unsigned_with_address(
    code: &mut Vec<AccItem>,
    f: Found,
    object: VarRef,
    index: u16,
) -> Result<(), NoMemory>
    ensures { OnOk result (Appends code.old.items code.new.items (comparison.items_with_constant Unsigned f (constant.Address object index))) }
{
    store(code, SCRATCH_0, f)?;
    op(
        code,
        AccOp::Lalk { shift: 0 },
        AccOperand::Address { object, index },
    )?;
    low_half(code)?;
    subs(code, SCRATCH_0)
}

fn unsigned_with_constant(code: &mut Vec<AccItem>, f: Found, k: Constant) -> Result<(), NoMemory>
    ensures { OnOk result (Appends code.old.items code.new.items (comparison.items_with_constant Unsigned f k)) }
{
    match k {
        Constant::Number(w) => unsigned_with_number(code, f, w),
        Constant::Address { object, index } => unsigned_with_address(code, f, object, index),
    }
}

fn items_with_constant(
    code: &mut Vec<AccItem>,
    order: Order,
    f: Found,
    k: Constant,
) -> Result<(), NoMemory>
    ensures { OnOk result (Appends code.old.items code.new.items (comparison.items_with_constant order f k)) }
{
    match order {
        Order::Exact => exact_with(code, f, k),
        Order::Signed => signed_with_constant(code, f, k),
        Order::Unsigned => unsigned_with_constant(code, f, k),
    }
}

fn test_with_constant(order: Order, t: Test, k: Constant) -> Test
    ensures { result ≡ comparison.test_with_constant order t k }
{
    match (order, k) {
        (Order::Unsigned, Constant::Address { .. }) => swapped(t),
        _ => t,
    }
}

/// The right word is a constant.
pub fn compared_with_constant(
    code: &mut Vec<AccItem>,
    c: Comparison,
    f: Found,
    k: Constant,
) -> Result<Test, NoMemory>
    ensures items { OnOk result (Appends code.old.items code.new.items (comparison.compared_with_constant c f k).items) }
    ensures test { IfOk result (λ t. t ≡ (comparison.compared_with_constant c f k).test) }
{
    items_with_constant(code, c.order, f, k)?;
    Ok(test_with_constant(c.order, c.test, k))
}

/// The left word is a constant, and the right one has to be computed.
pub fn compared_of_constant(
    code: &mut Vec<AccItem>,
    c: Comparison,
    k: Constant,
    f: Found,
) -> Result<Test, NoMemory>
    ensures items { OnOk result (Appends code.old.items code.new.items (comparison.compared_of_constant c k f).items) }
    ensures test { IfOk result (λ t. t ≡ (comparison.compared_of_constant c k f).test) }
{
    compared_with_constant(code, swapped_comparison(c), f, k)
}

fn signed_behind(code: &mut Vec<AccItem>, m: AccOperand, f: Found) -> Result<(), NoMemory>
    ensures { OnOk result (Appends code.old.items code.new.items (word.store (word.scratch 0) f ⧺ word.lac m ▸ comparison.sub (word.scratch 0) ▸ end)) }
{
    store(code, SCRATCH_0, f)?;
    lac(code, m)?;
    sub(code, SCRATCH_0)
}

fn signed_of_place(code: &mut Vec<AccItem>, m: AccOperand, f: Found) -> Result<(), NoMemory>
    ensures { OnOk result (Appends code.old.items code.new.items (comparison.items_of_place Signed m f (word.high f))) }
{
    match high_of(f) {
        HighHalf::Any | HighHalf::Zero => signed_behind(code, m, f),
        HighHalf::Sign | HighHalf::Small => {
            let _high = load(code, f)?;
            sub(code, m)
        }
    }
}

fn unsigned_behind(code: &mut Vec<AccItem>, m: AccOperand, f: Found) -> Result<(), NoMemory>
    ensures { OnOk result (Appends code.old.items code.new.items (word.store (word.scratch 0) f ⧺ Op row.Zals m ▸ comparison.subs (word.scratch 0) ▸ end)) }
{
    store(code, SCRATCH_0, f)?;
    op(code, AccOp::Zals, m)?;
    subs(code, SCRATCH_0)
}

fn unsigned_of_place(code: &mut Vec<AccItem>, m: AccOperand, f: Found) -> Result<(), NoMemory>
    ensures { OnOk result (Appends code.old.items code.new.items (comparison.items_of_place Unsigned m f (word.high f))) }
{
    match high_of(f) {
        HighHalf::Any | HighHalf::Sign => unsigned_behind(code, m, f),
        HighHalf::Zero | HighHalf::Small => {
            let _high = load(code, f)?;
            subs(code, m)
        }
    }
}

fn items_of_place(
    code: &mut Vec<AccItem>,
    order: Order,
    m: AccOperand,
    f: Found,
) -> Result<(), NoMemory>
    ensures { OnOk result (Appends code.old.items code.new.items (comparison.items_of_place order m f (word.high f))) }
{
    match order {
        Order::Exact => exact_with_place(code, f, m),
        Order::Signed => signed_of_place(code, m, f),
        Order::Unsigned => unsigned_of_place(code, m, f),
    }
}

fn test_of_place(order: Order, t: Test, h: HighHalf) -> Test
    ensures { result ≡ comparison.test_of_place order t h }
{
    match (order, h) {
        (Order::Signed, HighHalf::Sign | HighHalf::Small) => swapped(t),
        (Order::Unsigned, HighHalf::Zero | HighHalf::Small) => swapped(t),
        _ => t,
    }
}

/// The left word was stored to a place. The right one is compared with it where its high half is known so, else it makes way for the left
/// one.
pub fn compared_of_place(
    code: &mut Vec<AccItem>,
    c: Comparison,
    m: AccOperand,
    f: Found,
) -> Result<Test, NoMemory>
    ensures items { OnOk result (Appends code.old.items code.new.items (comparison.compared_of_place c m f).items) }
    ensures test { IfOk result (λ t. t ≡ (comparison.compared_of_place c m f).test) }
{
    items_of_place(code, c.order, m, f)?;
    Ok(test_of_place(c.order, c.test, high_of(f)))
}
