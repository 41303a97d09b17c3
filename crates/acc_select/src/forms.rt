//! The code of forms from the words of their parts.
#![tactic(auto, using(acc_operations::proofs::ItemLemmas::item_lists))]

ghost use Rattle.std.specs.Prelude.{◌≡◌, ◌+◌, ◌≤◌, suc, OnOk, IfOk};
ghost use Rattle.acc_code.specs.AccTree.{Op, end, ◌▸◌};
ghost use Rattle.acc_operations.specs.Appended.{Appends};
ghost use Rattle.acc_select.specs.Conditions as condition;
ghost use Rattle.acc_select.specs.Forms as form;
ghost use Rattle.acc_select.specs.OperationWords as words;
ghost use Rattle.acc_operations.specs.Words as word;
ghost use Rattle.acc_operations.specs.declared.found.Found.TheVariants as found;
ghost use Rattle.acc_operations.specs.declared.high_half.HighHalf.TheVariants as high;

use crate::code::{Code, Result};
use crate::conditions::choose;
use crate::part::Part;
use crate::part::ShortPart::{Null, One};
use acc_code::{AccItem, AccOp, AccOperand, Test};
use acc_operations::{
    Constant, Found, HighHalf, Operation, SCRATCH_0, bare, compared_of_constant, compared_of_place,
    compared_with_constant, compared_with_place, lac, load, of_constant, of_place, op, sacl, store,
    with_constant, with_place,
};
use tree_code::UnaryOp;
use word_base::NoMemory;

/// The scalar behind a temporary.
pub(crate) fn next(t: u8) -> Result<u8>
    ensures { IfOk result (λ n. n ≡ suc t) }
{
    t.checked_add(1).ok_or(NoMemory)
}

/// Where an argument goes.
pub(crate) fn argument_place(function: u16, index: u8, waits: u8, is_last: bool) -> AccOperand
    ensures { result ≡ words.argument_place function index waits is_last }
{
    if is_last {
        AccOperand::Param { function, index }
    } else {
        AccOperand::Scalar(waits)
    }
}

// The number of a truth that a test tells.
fn number(code: &mut Code, test: Test) -> Result<Found>
    ensures items { OnOk result (Appends code.old.items code.new.items (words.number_items test)) }
    ensures found { IfOk result (λ f. f ≡ found.Loaded high.Small) }
{
    choose(code, test, Part::Short(One), Part::Short(Null))?;
    Ok(Found::Loaded(HighHalf::Small))
}

/// The right operand is the word of a name.
pub(crate) fn with_named(code: &mut Code, o: Operation, f: Found, m: AccOperand) -> Result<Found>
    ensures items { OnOk result (Appends code.old.items code.new.items (words.with_named o f m).items) }
    ensures found { IfOk result (λ w. w ≡ (words.with_named o f m).found) }
{
    match o {
        Operation::Word(o) => with_place(code, o, f, m),
        Operation::Truth(c) => {
            let test = compared_with_place(code, c, f, m)?;
            number(code, test)
        }
    }
}

/// The right operand is a constant.
pub(crate) fn with_number(code: &mut Code, o: Operation, f: Found, k: Constant) -> Result<Found>
    ensures items { OnOk result (Appends code.old.items code.new.items (words.with_number o f k).items) }
    ensures found { IfOk result (λ w. w ≡ (words.with_number o f k).found) }
{
    match o {
        Operation::Word(o) => with_constant(code, o, f, k),
        Operation::Truth(c) => {
            let test = compared_with_constant(code, c, f, k)?;
            number(code, test)
        }
    }
}

/// The left operand is a constant, and the right one was computed.
pub(crate) fn of_number(code: &mut Code, o: Operation, k: Constant, f: Found) -> Result<Found>
    ensures items { OnOk result (Appends code.old.items code.new.items (words.of_number o k f).items) }
    ensures found { IfOk result (λ w. w ≡ (words.of_number o k f).found) }
{
    match o {
        Operation::Word(o) => of_constant(code, o, k, f),
        Operation::Truth(c) => {
            let test = compared_of_constant(code, c, k, f)?;
            number(code, test)
        }
    }
}

/// The left operand was kept in a place, and the right one was computed.
pub(crate) fn of_kept(code: &mut Code, o: Operation, m: AccOperand, f: Found) -> Result<Found>
    ensures items { OnOk result (Appends code.old.items code.new.items (words.of_kept o m f).items) }
    ensures found { IfOk result (λ w. w ≡ (words.of_kept o m f).found) }
{
    match o {
        Operation::Word(o) => of_place(code, o, m, f),
        Operation::Truth(c) => {
            let test = compared_of_place(code, c, m, f)?;
            number(code, test)
        }
    }
}

fn complement_high(h: HighHalf) -> HighHalf
    ensures { result ≡ form.complement_high h }
{
    match h {
        HighHalf::Any | HighHalf::Zero => HighHalf::Any,
        HighHalf::Sign | HighHalf::Small => HighHalf::Sign,
    }
}

/// An operator on a word.
pub(crate) fn unary_row(code: &mut Code, op: UnaryOp, f: Found) -> Result<Found>
    ensures items { OnOk result (Appends code.old.items code.new.items (form.unary_word op f).items) }
    ensures found { IfOk result (λ w. w ≡ (form.unary_word op f).found) }
{
    let high = load(code, f)?;
    match op {
        UnaryOp::Plus => Ok(Found::Loaded(high)),
        UnaryOp::Minus => {
            bare(code, AccOp::Neg)?;
            Ok(Found::Loaded(HighHalf::Any))
        }
        UnaryOp::Complement => {
            bare(code, AccOp::Cmpl)?;
            Ok(Found::Loaded(complement_high(high)))
        }
    }
}

// The address that a place holds is pointed to.
fn point_by(code: &mut Code, m: AccOperand) -> Result<()>
    ensures { OnOk result (Appends code.old.items code.new.items (word.lac m ▸ form.point ▸ end)) }
{
    lac(code, m)?;
    bare(code, AccOp::Point)
}

/// The accumulator goes to the address that a place holds.
pub(crate) fn through(code: &mut Code, m: AccOperand) -> Result<Found>
    ensures items { OnOk result (Appends code.old.items code.new.items (form.through m)) }
    ensures found { IfOk result (λ w. w ≡ found.Loaded high.Sign) }
{
    sacl(code, SCRATCH_0)?;
    point_by(code, m)?;
    lac(code, SCRATCH_0)?;
    sacl(code, AccOperand::Pointed)?;
    Ok(Found::Loaded(HighHalf::Sign))
}

/// One more in the accumulator, or one less.
pub(crate) fn one(code: &mut Code, up: bool) -> Result<()>
    ensures { OnOk result (Appends code.old.items code.new.items (form.step_row up ▸ end)) }
{
    let row = if up { AccOp::Addk } else { AccOp::Subk };
    op(code, row, AccOperand::Number(1))
}

/// One less where the step was one more, and the other way round.
pub(crate) fn undo(code: &mut Code, up: bool) -> Result<()>
    ensures { OnOk result (Appends code.old.items code.new.items (form.undo_row up ▸ end)) }
{
    let row = if up { AccOp::Subk } else { AccOp::Addk };
    op(code, row, AccOperand::Number(1))
}

/// One more, or one less, in a place.
pub(crate) fn stepped(code: &mut Code, up: bool, m: AccOperand) -> Result<()>
    ensures { OnOk result (Appends code.old.items code.new.items (form.stepped up m)) }
{
    lac(code, m)?;
    one(code, up)?;
    sacl(code, m)
}

/// A place is pointed by, and steps behind it.
pub(crate) fn point_name_step(code: &mut Code, up: bool, m: AccOperand) -> Result<()>
    ensures { OnOk result (Appends code.old.items code.new.items (word.lac m ▸ form.point ▸ form.step_row up ▸ word.sacl m ▸ end)) }
{
    point_by(code, m)?;
    one(code, up)?;
    sacl(code, m)
}

/// The next word of a port.
pub(crate) fn take(code: &mut Code, port: u8) -> Result<Found>
    ensures items { OnOk result (Appends code.old.items code.new.items (form.in_code port).word.items) }
    ensures found { IfOk result (λ w. w ≡ (form.in_code port).word.found) }
{
    op(code, AccOp::In { port }, SCRATCH_0)?;
    Ok(Found::Held(SCRATCH_0))
}

/// A word to a port.
pub(crate) fn out(code: &mut Code, port: u8, f: Found) -> Result<()>
    ensures { OnOk result (Appends code.old.items code.new.items (form.out_items port f)) }
{
    match f {
        Found::Held(m) => op(code, AccOp::Out { port }, m),
        Found::Fixed(_) | Found::Loaded(_) => {
            store(code, SCRATCH_0, f)?;
            op(code, AccOp::Out { port }, SCRATCH_0)
        }
    }
}

/// Arguments that wait in temporaries from the scalar `t` on go to their parameters.
#[tactic(auto, using(acc_operations::proofs::ItemLemmas::item_lists, crate::proofs::ParameterLemmas::one_more_parameter))]
pub(crate) fn parameters(code: &mut Code, function: u16, count: u8, t: u8) -> Result<()>
    requires { t + count ≤ 255 }
    ensures { OnOk result (Appends code.old.items code.new.items (form.parameter_items function 0 t count)) }
{
    for index in 0..count {
        lac(code, AccOperand::Scalar(t + index))?;
        sacl(code, AccOperand::Param { function, index })?;
    }
    Ok(())
}
