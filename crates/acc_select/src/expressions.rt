//! The code of expressions: their words, where their values aren't used, and as conditions.
//!
//! The temporaries of an expression begin at the scalar `t`.
#![tactic(auto, using(acc_operations::proofs::ItemLemmas::item_lists))]

ghost use Rattle.std.specs.Prelude.{◌≡◌, ◌+◌, ◌≤◌, suc, true, false, OnOk, IfOk};
ghost use Rattle.acc_code.specs.AccTree.{◌⧺◌};
ghost use Rattle.acc_code.specs.AccView.{item_list};
ghost use Rattle.acc_operations.specs.Appended.{Appends};
ghost use Rattle.acc_select.specs.Conditions as condition;
ghost use Rattle.acc_operations.specs.Constants as constant;
ghost use Rattle.acc_select.specs.Forms as form;
ghost use Rattle.acc_select.specs.OperationWords as words;
ghost use Rattle.acc_select.specs.PartView.{part_of, short_part_of};
ghost use Rattle.acc_select.specs.Selected as selected;
ghost use Rattle.acc_select.specs.Selected.{code_of};
ghost use Rattle.acc_operations.specs.Words as word;
ghost use Rattle.acc_operations.specs.declared.found.Found.TheVariants.{Held, Loaded};
ghost use Rattle.acc_operations.specs.declared.high_half.HighHalf.TheVariants.{Any, Sign, Small};
ghost use Rattle.acc_code.specs.declared.operation.Test.TheVariants.{Nz};
ghost use Rattle.tree_code.specs.WordTree as tree;
ghost use Rattle.tree_code.specs.WordView.{word_expr_of, word_lvalue_of, word_argument_list};

use crate::code::{Code, Result};
use crate::conditions::choose;
use crate::forms::{
    argument_place, next, of_kept, of_number, out, parameters, point_name_step, stepped, take,
    through, unary_row, undo, with_named, with_number,
};
use crate::part::Part;
use crate::part::ShortPart::{self, Nothing, Null, One};
use acc_code::{AccItem, AccOp, AccOperand, Test};
use acc_operations::{
    Comparison, Constant, Found, HighHalf, Operation, SCRATCH_0, Shape, bare, compared_of_constant,
    compared_of_place, compared_with_constant, compared_with_place, in_sense, lac, load,
    load_clean, load_signed, op, operation_of, place_of, push, sacl, shape_of, store,
};
use std::alloc::Global;
use tree_code::{UnaryOp, WordExpr, WordForm, WordTarget, WordTargetForm};

/// Finds the word of an expression.
#[cycle(expressions)]
pub(crate) fn find(code: &mut Code, e: &WordExpr, t: u8) -> Result<Found>
    ensures items { OnOk result (Appends code.old.items code.new.items (code_of (word_expr_of e.now) t).word.items) }
    ensures found { IfOk result (λ f. f ≡ (code_of (word_expr_of e.now) t).word.found) }
{
    match &e.form {
        WordForm::Const(w) => Ok(Found::Fixed(Constant::Number(*w))),
        WordForm::Read(v) => Ok(Found::Held(place_of(*v))),
        WordForm::AddressOf(v) => Ok(Found::Fixed(Constant::Address {
            object: *v,
            index: 0,
        })),
        WordForm::Load(p) => pointed(code, p, t),
        WordForm::Unary { op, value } => unary(code, shape_of(e), *op, value, t),
        WordForm::Binary { op, left, right } => { binary(code, operation_of(*op), left, right, t) }
        WordForm::And { left, right } => {
            joined(code, true, left, right, t)?;
            Ok(Found::Loaded(HighHalf::Small))
        }
        WordForm::Or { left, right } => {
            joined(code, false, left, right, t)?;
            Ok(Found::Loaded(HighHalf::Small))
        }
        WordForm::Not(value) => not_number(code, value, t),
        WordForm::Pick { test, yes, no } => pick(code, test, yes, no, t),
        WordForm::Assign { to, value } => assign(code, to, value, t),
        WordForm::AssignOp { op, to, value } => { update(code, operation_of(*op), to, value, t) }
        WordForm::StepBefore { up, to } => step_before(code, *up, to, t),
        WordForm::StepAfter { up, to } => step_after(code, *up, to, t),
        WordForm::Call { function, args } => call(args, code, *function, t),
        WordForm::In { port } => take(code, *port),
        WordForm::Out { port, value } => put(code, *port, value, t),
        WordForm::Comma { left, right } => {
            effect(code, left, t)?;
            find(code, right, t)
        }
    }
}

/// Loads the word of an expression, and says what is known of the high half then.
#[cycle(expressions)]
pub(crate) fn loaded(code: &mut Code, e: &WordExpr, t: u8) -> Result<HighHalf>
    ensures items { OnOk result (Appends code.old.items code.new.items (word.loaded (code_of (word_expr_of e.now) t).word)) }
    ensures high { IfOk result (λ h. h ≡ word.high (code_of (word_expr_of e.now) t).word.found) }
{
    let found = find(code, e, t)?;
    load(code, found)
}

/// Runs an expression whose value isn't used.
#[cycle(expressions)]
pub(crate) fn effect(code: &mut Code, e: &WordExpr, t: u8) -> Result<()>
    ensures { OnOk result (Appends code.old.items code.new.items (code_of (word_expr_of e.now) t).effect) }
{
    match &e.form {
        WordForm::Binary { op, left, right } => {
            binary_effect(code, operation_of(*op), left, right, t)
        }
        WordForm::And { left, right } => {
            both(code, left, right, t, true, Part::Short(Nothing), Nothing)
        }
        WordForm::Or { left, right } => {
            either(code, left, right, t, true, Nothing, Part::Short(Nothing))
        }
        WordForm::Not(value) => condition(
            code,
            value,
            t,
            false,
            Part::Short(Nothing),
            Part::Short(Nothing),
        ),
        WordForm::Pick { test, yes, no } => pick_effect(code, test, yes, no, t),
        WordForm::Assign { to, value } => assign_effect(code, to, value, t),
        WordForm::StepAfter { up, to } => step(code, *up, to, t),
        WordForm::In { port } => op(code, AccOp::In { port: *port }, SCRATCH_0),
        WordForm::Comma { left, right } => {
            effect(code, left, t)?;
            effect(code, right, t)
        }
        _ => loaded_effect(code, e, t),
    }
}

#[cycle(expressions)]
fn loaded_effect(code: &mut Code, e: &WordExpr, t: u8) -> Result<()>
    ensures { OnOk result (Appends code.old.items code.new.items (word.loaded (code_of (word_expr_of e.now) t).word)) }
{
    let _high = loaded(code, e, t)?;
    Ok(())
}

/// Stores the word of an expression to a place.
#[cycle(expressions)]
pub(crate) fn into(code: &mut Code, e: &WordExpr, t: u8, m: AccOperand) -> Result<()>
    ensures { OnOk result (Appends code.old.items code.new.items ((code_of (word_expr_of e.now) t).into m)) }
{
    match &e.form {
        WordForm::In { port } => op(code, AccOp::In { port: *port }, m),
        WordForm::Comma { left, right } => {
            effect(code, left, t)?;
            into(code, right, t, m)
        }
        _ => loaded_into(code, e, t, m),
    }
}

#[cycle(expressions)]
fn loaded_into(code: &mut Code, e: &WordExpr, t: u8, m: AccOperand) -> Result<()>
    ensures { OnOk result (Appends code.old.items code.new.items (form.stored (code_of (word_expr_of e.now) t).word m).items) }
{
    let _high = loaded(code, e, t)?;
    sacl(code, m)
}

/// Makes the word of an expression the address of what is pointed to.
#[cycle(expressions)]
pub(crate) fn point(code: &mut Code, e: &WordExpr, t: u8) -> Result<()>
    ensures { OnOk result (Appends code.old.items code.new.items (code_of (word_expr_of e.now) t).point) }
{
    match &e.form {
        WordForm::StepAfter { up, to } => point_step(code, *up, to, t),
        WordForm::Comma { left, right } => {
            effect(code, left, t)?;
            point(code, right, t)
        }
        _ => loaded_point(code, e, t),
    }
}

#[cycle(expressions)]
fn loaded_point(code: &mut Code, e: &WordExpr, t: u8) -> Result<()>
    ensures { OnOk result (Appends code.old.items code.new.items (form.of_word (code_of (word_expr_of e.now) t).word).point) }
{
    let _high = loaded(code, e, t)?;
    bare(code, AccOp::Point)
}

#[cycle(expressions)]
fn pointed(code: &mut Code, p: &WordExpr, t: u8) -> Result<Found>
    ensures items { OnOk result (Appends code.old.items code.new.items (form.load_code (code_of (word_expr_of p.now) t)).word.items) }
    ensures found { IfOk result (λ f. f ≡ (form.load_code (code_of (word_expr_of p.now) t)).word.found) }
{
    point(code, p, t)?;
    Ok(Found::Held(AccOperand::Pointed))
}

// `shape` is that of the whole: a minus on a number is a number.
#[cycle(expressions)]
fn unary(code: &mut Code, shape: Shape, op: UnaryOp, value: &WordExpr, t: u8) -> Result<Found>
    ensures items { OnOk result (Appends code.old.items code.new.items (form.unary_code shape op (code_of (word_expr_of value.now) t)).word.items) }
    ensures found { IfOk result (λ f. f ≡ (form.unary_code shape op (code_of (word_expr_of value.now) t)).word.found) }
{
    match shape {
        Shape::Constant(k) => Ok(Found::Fixed(k)),
        Shape::Named(_) | Shape::Computed => {
            let found = find(code, value, t)?;
            unary_row(code, op, found)
        }
    }
}

#[cycle(expressions)]
fn binary(code: &mut Code, o: Operation, left: &WordExpr, right: &WordExpr, t: u8) -> Result<Found>
    ensures items { OnOk result (Appends code.old.items code.new.items (words.operated o (constant.shape_of (word_expr_of left.now)) (constant.shape_of (word_expr_of right.now)) (code_of (word_expr_of left.now)) (code_of (word_expr_of right.now)) t).items) }
    ensures found { IfOk result (λ f. f ≡ (words.operated o (constant.shape_of (word_expr_of left.now)) (constant.shape_of (word_expr_of right.now)) (code_of (word_expr_of left.now)) (code_of (word_expr_of right.now)) t).found) }
{
    match (shape_of(left), shape_of(right)) {
        (_, Shape::Named(m)) => {
            let found = find(code, left, t)?;
            with_named(code, o, found, m)
        }
        (_, Shape::Constant(k)) => {
            let found = find(code, left, t)?;
            with_number(code, o, found, k)
        }
        (Shape::Constant(k), Shape::Computed) => {
            let found = find(code, right, t)?;
            of_number(code, o, k, found)
        }
        (Shape::Named(_) | Shape::Computed, Shape::Computed) => {
            let found = kept(code, left, right, t)?;
            of_kept(code, o, AccOperand::Scalar(t), found)
        }
    }
}

// Keeps the left word in a temporary and finds the right one.
#[cycle(expressions)]
fn kept(code: &mut Code, left: &WordExpr, right: &WordExpr, t: u8) -> Result<Found>
    ensures items { OnOk result (Appends code.old.items code.new.items ((code_of (word_expr_of left.now) t).into (form.temporary t) ⧺ (code_of (word_expr_of right.now) (suc t)).word.items)) }
    ensures found { IfOk result (λ f. f ≡ (code_of (word_expr_of right.now) (suc t)).word.found) }
{
    into(code, left, t, AccOperand::Scalar(t))?;
    find(code, right, next(t)?)
}

// Compares two words, and says which test holds where the comparison does.
#[cycle(expressions)]
fn compare(code: &mut Code, c: Comparison, left: &WordExpr, right: &WordExpr, t: u8) -> Result<Test>
    ensures items { OnOk result (Appends code.old.items code.new.items (form.compared c (constant.shape_of (word_expr_of left.now)) (constant.shape_of (word_expr_of right.now)) (code_of (word_expr_of left.now)) (code_of (word_expr_of right.now)) t).items) }
    ensures test { IfOk result (λ k. k ≡ (form.compared c (constant.shape_of (word_expr_of left.now)) (constant.shape_of (word_expr_of right.now)) (code_of (word_expr_of left.now)) (code_of (word_expr_of right.now)) t).test) }
{
    match (shape_of(left), shape_of(right)) {
        (_, Shape::Named(m)) => {
            let found = find(code, left, t)?;
            compared_with_place(code, c, found, m)
        }
        (_, Shape::Constant(k)) => {
            let found = find(code, left, t)?;
            compared_with_constant(code, c, found, k)
        }
        (Shape::Constant(k), Shape::Computed) => {
            let found = find(code, right, t)?;
            compared_of_constant(code, c, k, found)
        }
        (Shape::Named(_) | Shape::Computed, Shape::Computed) => {
            let found = kept(code, left, right, t)?;
            compared_of_place(code, c, AccOperand::Scalar(t), found)
        }
    }
}

// An operation on the word of a place and another one.
#[cycle(expressions)]
fn updated(code: &mut Code, o: Operation, m: AccOperand, right: &WordExpr, t: u8) -> Result<Found>
    ensures items { OnOk result (Appends code.old.items code.new.items (words.updated o (constant.shape_of (word_expr_of right.now)) m (code_of (word_expr_of right.now)) t).items) }
    ensures found { IfOk result (λ f. f ≡ (words.updated o (constant.shape_of (word_expr_of right.now)) m (code_of (word_expr_of right.now)) t).found) }
{
    match shape_of(right) {
        Shape::Named(n) => with_named(code, o, Found::Held(m), n),
        Shape::Constant(k) => with_number(code, o, Found::Held(m), k),
        Shape::Computed => {
            let found = held(code, m, right, t)?;
            of_kept(code, o, AccOperand::Scalar(t), found)
        }
    }
}

// Keeps the word of a place in a temporary and finds another one.
#[cycle(expressions)]
fn held(code: &mut Code, m: AccOperand, right: &WordExpr, t: u8) -> Result<Found>
    ensures items { OnOk result (Appends code.old.items code.new.items (word.store (form.temporary t) (Held m) ⧺ (code_of (word_expr_of right.now) (suc t)).word.items)) }
    ensures found { IfOk result (λ f. f ≡ (code_of (word_expr_of right.now) (suc t)).word.found) }
{
    store(code, AccOperand::Scalar(t), Found::Held(m))?;
    find(code, right, next(t)?)
}

#[cycle(expressions)]
fn binary_effect(
    code: &mut Code,
    o: Operation,
    left: &WordExpr,
    right: &WordExpr,
    t: u8,
) -> Result<()>
    ensures { OnOk result (Appends code.old.items code.new.items (words.operation_effect o (constant.shape_of (word_expr_of left.now)) (constant.shape_of (word_expr_of right.now)) (code_of (word_expr_of left.now)) (code_of (word_expr_of right.now)) t)) }
{
    match o {
        Operation::Word(_) => {
            let found = binary(code, o, left, right, t)?;
            let _high = load(code, found)?;
            Ok(())
        }
        Operation::Truth(c) => {
            let test = compare(code, c, left, right, t)?;
            choose(code, test, Part::Short(Nothing), Part::Short(Nothing))
        }
    }
}

// Loads the number of two truths: of both, or of either.
#[cycle(expressions)]
fn joined(code: &mut Code, all: bool, left: &WordExpr, right: &WordExpr, t: u8) -> Result<()>
    ensures { OnOk result (Appends code.old.items code.new.items (condition.joined all (code_of (word_expr_of left.now) t).branch (code_of (word_expr_of right.now) t).branch)) }
{
    if all {
        both(code, left, right, t, true, Part::Short(One), Null)
    } else {
        either(code, left, right, t, true, One, Part::Short(Null))
    }
}

#[cycle(expressions)]
fn not_number(code: &mut Code, value: &WordExpr, t: u8) -> Result<Found>
    ensures items { OnOk result (Appends code.old.items code.new.items (form.not_code (code_of (word_expr_of value.now) t)).word.items) }
    ensures found { IfOk result (λ f. f ≡ Loaded Small) }
{
    condition(code, value, t, false, Part::Short(One), Part::Short(Null))?;
    Ok(Found::Loaded(HighHalf::Small))
}

// The word of an expression with its sign in the high half, in a list of its own.
#[cycle(expressions)]
fn signed_list(alloc: Global, e: &WordExpr, t: u8) -> Result<Code>
    ensures { IfOk result (λ list. item_list list.items ≡ form.signed_items (code_of (word_expr_of e.now) t).word) }
{
    let mut list = Vec::new(alloc);
    let found = find(&mut list, e, t)?;
    load_signed(&mut list, found)?;
    Ok(list)
}

#[cycle(expressions)]
fn pick(code: &mut Code, test: &WordExpr, yes: &WordExpr, no: &WordExpr, t: u8) -> Result<Found>
    ensures items { OnOk result (Appends code.old.items code.new.items (form.pick_code (code_of (word_expr_of test.now) t) (code_of (word_expr_of yes.now) t) (code_of (word_expr_of no.now) t)).word.items) }
    ensures found { IfOk result (λ f. f ≡ Loaded Sign) }
{
    let alloc = *code.allocator();
    let yes = signed_list(alloc, yes, t)?;
    let no = signed_list(alloc, no, t)?;
    condition(code, test, t, true, Part::Runs(yes), Part::Runs(no))?;
    Ok(Found::Loaded(HighHalf::Sign))
}

#[cycle(expressions)]
fn effect_list(alloc: Global, e: &WordExpr, t: u8) -> Result<Code>
    ensures { IfOk result (λ list. item_list list.items ≡ (code_of (word_expr_of e.now) t).effect) }
{
    let mut list = Vec::new(alloc);
    effect(&mut list, e, t)?;
    Ok(list)
}

#[cycle(expressions)]
fn pick_effect(code: &mut Code, test: &WordExpr, yes: &WordExpr, no: &WordExpr, t: u8) -> Result<()>
    ensures { OnOk result (Appends code.old.items code.new.items (form.pick_code (code_of (word_expr_of test.now) t) (code_of (word_expr_of yes.now) t) (code_of (word_expr_of no.now) t)).effect) }
{
    let alloc = *code.allocator();
    let yes = effect_list(alloc, yes, t)?;
    let no = effect_list(alloc, no, t)?;
    condition(code, test, t, true, Part::Runs(yes), Part::Runs(no))
}

#[cycle(expressions)]
fn assign(code: &mut Code, to: &WordTarget, value: &WordExpr, t: u8) -> Result<Found>
    ensures items { OnOk result (Appends code.old.items code.new.items (code_of (tree.Node (tree.Assign (word_lvalue_of to.now.form to.now.at) (word_expr_of value.now)) 0) t).word.items) }
    ensures found { IfOk result (λ f. f ≡ (code_of (tree.Node (tree.Assign (word_lvalue_of to.now.form to.now.at) (word_expr_of value.now)) 0) t).word.found) }
{
    match &to.form {
        WordTargetForm::Named(v) => stored(code, value, place_of(*v), t),
        WordTargetForm::At(p) => assign_at(code, p, value, t),
    }
}

#[cycle(expressions)]
fn assign_at(code: &mut Code, p: &WordExpr, value: &WordExpr, t: u8) -> Result<Found>
    ensures items { OnOk result (Appends code.old.items code.new.items (form.assign_at_code (constant.shape_of (word_expr_of value.now)) (code_of (word_expr_of p.now)) (code_of (word_expr_of value.now)) t).word.items) }
    ensures found { IfOk result (λ f. f ≡ (form.assign_at_code (constant.shape_of (word_expr_of value.now)) (code_of (word_expr_of p.now)) (code_of (word_expr_of value.now)) t).word.found) }
{
    match shape_of(value) {
        Shape::Constant(_) | Shape::Named(_) => {
            point(code, p, t)?;
            stored(code, value, AccOperand::Pointed, t)
        }
        Shape::Computed => assign_through(code, p, value, t),
    }
}

// The pointer waits in a temporary.
#[cycle(expressions)]
fn assign_through(code: &mut Code, p: &WordExpr, value: &WordExpr, t: u8) -> Result<Found>
    ensures items { OnOk result (Appends code.old.items code.new.items (form.assign_through (code_of (word_expr_of p.now)) (code_of (word_expr_of value.now)) t).items) }
    ensures found { IfOk result (λ f. f ≡ Loaded Sign) }
{
    into(code, p, t, AccOperand::Scalar(t))?;
    let _high = loaded(code, value, next(t)?)?;
    through(code, AccOperand::Scalar(t))
}

// Stores the word of an expression, which stays in the accumulator.
#[cycle(expressions)]
fn stored(code: &mut Code, e: &WordExpr, m: AccOperand, t: u8) -> Result<Found>
    ensures items { OnOk result (Appends code.old.items code.new.items (form.stored (code_of (word_expr_of e.now) t).word m).items) }
    ensures found { IfOk result (λ f. f ≡ (form.stored (code_of (word_expr_of e.now) t).word m).found) }
{
    let high = loaded(code, e, t)?;
    sacl(code, m)?;
    Ok(Found::Loaded(high))
}

#[cycle(expressions)]
fn assign_effect(code: &mut Code, to: &WordTarget, value: &WordExpr, t: u8) -> Result<()>
    ensures { OnOk result (Appends code.old.items code.new.items (code_of (tree.Node (tree.Assign (word_lvalue_of to.now.form to.now.at) (word_expr_of value.now)) 0) t).effect) }
{
    match &to.form {
        WordTargetForm::Named(v) => into(code, value, t, place_of(*v)),
        WordTargetForm::At(p) => {
            let found = assign_at(code, p, value, t)?;
            let _high = load(code, found)?;
            Ok(())
        }
    }
}

#[cycle(expressions)]
fn update(code: &mut Code, o: Operation, to: &WordTarget, value: &WordExpr, t: u8) -> Result<Found>
    ensures items { OnOk result (Appends code.old.items code.new.items (words.update_word o (word_lvalue_of to.now.form to.now.at) (word_expr_of value.now) t).items) }
    ensures found { IfOk result (λ f. f ≡ (words.update_word o (word_lvalue_of to.now.form to.now.at) (word_expr_of value.now) t).found) }
{
    match &to.form {
        WordTargetForm::Named(v) => update_place(code, o, place_of(*v), value, t),
        WordTargetForm::At(p) => update_at(code, o, p, value, t),
    }
}

#[cycle(expressions)]
fn update_at(code: &mut Code, o: Operation, p: &WordExpr, value: &WordExpr, t: u8) -> Result<Found>
    ensures items { OnOk result (Appends code.old.items code.new.items (words.update_at o (constant.shape_of (word_expr_of value.now)) (code_of (word_expr_of p.now)) (code_of (word_expr_of value.now)) t).items) }
    ensures found { IfOk result (λ f. f ≡ (words.update_at o (constant.shape_of (word_expr_of value.now)) (code_of (word_expr_of p.now)) (code_of (word_expr_of value.now)) t).found) }
{
    match shape_of(value) {
        Shape::Constant(_) | Shape::Named(_) => {
            point(code, p, t)?;
            update_place(code, o, AccOperand::Pointed, value, t)
        }
        Shape::Computed => update_through(code, o, p, value, t),
    }
}

#[cycle(expressions)]
fn update_place(code: &mut Code, o: Operation, m: AccOperand, e: &WordExpr, t: u8) -> Result<Found>
    ensures items { OnOk result (Appends code.old.items code.new.items (form.stored (words.updated o (constant.shape_of (word_expr_of e.now)) m (code_of (word_expr_of e.now)) t) m).items) }
    ensures found { IfOk result (λ f. f ≡ (form.stored (words.updated o (constant.shape_of (word_expr_of e.now)) m (code_of (word_expr_of e.now)) t) m).found) }
{
    let found = updated(code, o, m, e, t)?;
    let high = load(code, found)?;
    sacl(code, m)?;
    Ok(Found::Loaded(high))
}

// The pointer waits in a temporary, and is pointed to.
#[cycle(expressions)]
fn point_kept(code: &mut Code, p: &WordExpr, t: u8) -> Result<()>
    ensures { OnOk result (Appends code.old.items code.new.items (words.point_kept (code_of (word_expr_of p.now) t).word (form.temporary t))) }
{
    let _high = loaded(code, p, t)?;
    sacl(code, AccOperand::Scalar(t))?;
    bare(code, AccOp::Point)
}

#[cycle(expressions)]
fn update_through(code: &mut Code, o: Operation, p: &WordExpr, e: &WordExpr, t: u8) -> Result<Found>
    ensures items { OnOk result (Appends code.old.items code.new.items (words.update_through o (constant.shape_of (word_expr_of e.now)) (code_of (word_expr_of p.now)) (code_of (word_expr_of e.now)) t).items) }
    ensures found { IfOk result (λ f. f ≡ Loaded Sign) }
{
    point_kept(code, p, t)?;
    let found = updated(code, o, AccOperand::Pointed, e, next(t)?)?;
    let _high = load(code, found)?;
    through(code, AccOperand::Scalar(t))
}

// The place that is assigned to, once it is pointed to where it has no name.
#[cycle(expressions)]
fn place(code: &mut Code, to: &WordTarget, t: u8) -> Result<AccOperand>
    ensures items { OnOk result (Appends code.old.items code.new.items (selected.target_items (word_lvalue_of to.now.form to.now.at) t)) }
    ensures place { IfOk result (λ m. m ≡ selected.target_place (word_lvalue_of to.now.form to.now.at)) }
{
    match &to.form {
        WordTargetForm::Named(v) => Ok(place_of(*v)),
        WordTargetForm::At(p) => {
            point(code, p, t)?;
            Ok(AccOperand::Pointed)
        }
    }
}

// One more, or one less, in a place.
#[cycle(expressions)]
fn step(code: &mut Code, up: bool, to: &WordTarget, t: u8) -> Result<()>
    ensures { OnOk result (Appends code.old.items code.new.items (selected.target_items (word_lvalue_of to.now.form to.now.at) t ⧺ form.stepped up (selected.target_place (word_lvalue_of to.now.form to.now.at)))) }
{
    let m = place(code, to, t)?;
    stepped(code, up, m)
}

#[cycle(expressions)]
fn step_before(code: &mut Code, up: bool, to: &WordTarget, t: u8) -> Result<Found>
    ensures items { OnOk result (Appends code.old.items code.new.items (code_of (tree.Node (tree.StepBefore up (word_lvalue_of to.now.form to.now.at)) 0) t).word.items) }
    ensures found { IfOk result (λ f. f ≡ Loaded Any) }
{
    step(code, up, to, t)?;
    Ok(Found::Loaded(HighHalf::Any))
}

#[cycle(expressions)]
fn step_after(code: &mut Code, up: bool, to: &WordTarget, t: u8) -> Result<Found>
    ensures items { OnOk result (Appends code.old.items code.new.items (code_of (tree.Node (tree.StepAfter up (word_lvalue_of to.now.form to.now.at)) 0) t).word.items) }
    ensures found { IfOk result (λ f. f ≡ Loaded Any) }
{
    step(code, up, to, t)?;
    undo(code, up)?;
    Ok(Found::Loaded(HighHalf::Any))
}

// A pointer that steps behind its use is taken before.
#[cycle(expressions)]
fn point_step(code: &mut Code, up: bool, to: &WordTarget, t: u8) -> Result<()>
    ensures { OnOk result (Appends code.old.items code.new.items (code_of (tree.Node (tree.StepAfter up (word_lvalue_of to.now.form to.now.at)) 0) t).point) }
{
    match &to.form {
        WordTargetForm::Named(v) => point_name_step(code, up, place_of(*v)),
        WordTargetForm::At(_) => {
            let _found = step_after(code, up, to, t)?;
            bare(code, AccOp::Point)
        }
    }
}

#[cycle(expressions)]
fn put(code: &mut Code, port: u8, value: &WordExpr, t: u8) -> Result<Found>
    ensures items { OnOk result (Appends code.old.items code.new.items (form.out_code port (code_of (word_expr_of value.now) t)).word.items) }
    ensures found { IfOk result (λ f. f ≡ Loaded Any) }
{
    let found = find(code, value, t)?;
    out(code, port, found)?;
    Ok(Found::Loaded(HighHalf::Any))
}

#[cycle(expressions)]
fn call(args: &[WordExpr], code: &mut Code, function: u16, t: u8) -> Result<Found>
    ensures items { OnOk result (Appends code.old.items code.new.items (form.call_code function (selected.arguments function 0 (word_argument_list args.now) t) (form.parameter_items function 0 t (selected.waiting (word_argument_list args.now)))).word.items) }
    ensures found { IfOk result (λ f. f ≡ Loaded Any) }
{
    let waiting = arguments(args, code, function, t)?;
    parameters(code, function, waiting, t)?;
    push(code, AccItem::Call { function })?;
    Ok(Found::Loaded(HighHalf::Any))
}

// Each argument waits in a temporary, other than the last one, which goes to its parameter. Says how many wait.
#[cycle(expressions)]
fn arguments(args: &[WordExpr], code: &mut Code, function: u16, t: u8) -> Result<u8>
    ensures items { OnOk result (Appends code.old.items code.new.items (selected.arguments function 0 (word_argument_list args.now) t)) }
    ensures count { IfOk result (λ n. n ≡ selected.waiting (word_argument_list args.now)) }
    ensures within { IfOk result (λ n. t + n ≤ 255) }
{
    let mut waits = t;
    let mut left = args.len();
    for e in args {
        left -= 1;
        let place = argument_place(function, waits - t, waits, left == 0);
        into(code, e, waits, place)?;
        if left > 0 {
            waits = next(waits)?;
        }
    }
    Ok(waits - t)
}

/// Runs one of two parts, by the truth of an expression.
#[cycle(expressions)]
pub(crate) fn condition(
    code: &mut Code,
    e: &WordExpr,
    t: u8,
    sense: bool,
    yes: Part,
    no: Part,
) -> Result<()>
    ensures { OnOk result (Appends code.old.items code.new.items ((code_of (word_expr_of e.now) t).branch sense (part_of yes) (part_of no))) }
{
    match &e.form {
        WordForm::Not(value) => condition(code, value, t, !sense, yes, no),
        WordForm::And { left, right } => and(code, left, right, t, sense, yes, no),
        WordForm::Or { left, right } => or(code, left, right, t, sense, yes, no),
        WordForm::Comma { left, right } => {
            effect(code, left, t)?;
            condition(code, right, t, sense, yes, no)
        }
        _ => tested(code, e, t, sense, yes, no),
    }
}

#[cycle(expressions)]
fn tested(code: &mut Code, e: &WordExpr, t: u8, sense: bool, yes: Part, no: Part) -> Result<()>
    ensures { OnOk result (Appends code.old.items code.new.items (condition.by_comparison (selected.question_of (word_expr_of e.now) t) sense (part_of yes) (part_of no))) }
{
    let test = question(code, e, t)?;
    choose(code, in_sense(sense, test), yes, no)
}

// A test of what an expression leaves in the accumulator that holds where the expression isn't 0.
#[cycle(expressions)]
fn question(code: &mut Code, e: &WordExpr, t: u8) -> Result<Test>
    ensures items { OnOk result (Appends code.old.items code.new.items (selected.question_of (word_expr_of e.now) t).items) }
    ensures test { IfOk result (λ k. k ≡ (selected.question_of (word_expr_of e.now) t).test) }
{
    match &e.form {
        WordForm::Binary { op, left, right } => {
            binary_question(code, operation_of(*op), left, right, t)
        }
        _ => is_not_zero(code, e, t),
    }
}

#[cycle(expressions)]
fn is_not_zero(code: &mut Code, e: &WordExpr, t: u8) -> Result<Test>
    ensures items { OnOk result (Appends code.old.items code.new.items (condition.clean_items (code_of (word_expr_of e.now) t).word)) }
    ensures test { IfOk result (λ k. k ≡ Nz) }
{
    let found = find(code, e, t)?;
    load_clean(code, found)?;
    Ok(Test::Nz)
}

#[cycle(expressions)]
fn binary_question(
    code: &mut Code,
    o: Operation,
    left: &WordExpr,
    right: &WordExpr,
    t: u8,
) -> Result<Test>
    ensures items { OnOk result (Appends code.old.items code.new.items (words.operation_question o (constant.shape_of (word_expr_of left.now)) (constant.shape_of (word_expr_of right.now)) (code_of (word_expr_of left.now)) (code_of (word_expr_of right.now)) t).items) }
    ensures test { IfOk result (λ k. k ≡ (words.operation_question o (constant.shape_of (word_expr_of left.now)) (constant.shape_of (word_expr_of right.now)) (code_of (word_expr_of left.now)) (code_of (word_expr_of right.now)) t).test) }
{
    match o {
        Operation::Truth(c) => compare(code, c, left, right, t),
        Operation::Word(_) => {
            let found = binary(code, o, left, right, t)?;
            load_clean(code, found)?;
            Ok(Test::Nz)
        }
    }
}

#[cycle(expressions)]
fn and(
    code: &mut Code,
    left: &WordExpr,
    right: &WordExpr,
    t: u8,
    sense: bool,
    yes: Part,
    no: Part,
) -> Result<()>
    ensures { OnOk result (Appends code.old.items code.new.items (condition.and_branch (code_of (word_expr_of left.now) t).branch (code_of (word_expr_of right.now) t).branch sense (part_of yes) (part_of no))) }
{
    if sense {
        needs_both(code, left, right, t, true, yes, no)
    } else {
        needs_either(code, left, right, t, false, yes, no)
    }
}

// Both truths are needed for the first part. The second one may be too long to stand twice: then the number of the truth is tested.
#[cycle(expressions)]
fn needs_both(
    code: &mut Code,
    left: &WordExpr,
    right: &WordExpr,
    t: u8,
    sense: bool,
    yes: Part,
    no: Part,
) -> Result<()>
    ensures { OnOk result (Appends code.old.items code.new.items (condition.needs_both (code_of (word_expr_of left.now) t).branch (code_of (word_expr_of right.now) t).branch sense (part_of yes) (part_of no))) }
{
    match no {
        Part::Short(no) => both(code, left, right, t, sense, yes, no),
        Part::Runs(no) => {
            joined(code, sense, left, right, t)?;
            choose(code, in_sense(sense, Test::Nz), yes, Part::Runs(no))
        }
    }
}

// One of the truths will do for the first part, which may be too long to stand twice.
#[cycle(expressions)]
fn needs_either(
    code: &mut Code,
    left: &WordExpr,
    right: &WordExpr,
    t: u8,
    sense: bool,
    yes: Part,
    no: Part,
) -> Result<()>
    ensures { OnOk result (Appends code.old.items code.new.items (condition.needs_either (code_of (word_expr_of left.now) t).branch (code_of (word_expr_of right.now) t).branch sense (part_of yes) (part_of no))) }
{
    match yes {
        Part::Short(yes) => either(code, left, right, t, sense, yes, no),
        Part::Runs(yes) => {
            joined(code, !sense, left, right, t)?;
            choose(code, in_sense(sense, Test::Nz), Part::Runs(yes), no)
        }
    }
}

#[cycle(expressions)]
fn or(
    code: &mut Code,
    left: &WordExpr,
    right: &WordExpr,
    t: u8,
    sense: bool,
    yes: Part,
    no: Part,
) -> Result<()>
    ensures { OnOk result (Appends code.old.items code.new.items (condition.or_branch (code_of (word_expr_of left.now) t).branch (code_of (word_expr_of right.now) t).branch sense (part_of yes) (part_of no))) }
{
    if sense {
        needs_either(code, left, right, t, true, yes, no)
    } else {
        needs_both(code, left, right, t, false, yes, no)
    }
}

// The first part needs both truths. The second part stands twice.
#[cycle(expressions)]
fn both(
    code: &mut Code,
    left: &WordExpr,
    right: &WordExpr,
    t: u8,
    sense: bool,
    yes: Part,
    no: ShortPart,
) -> Result<()>
    ensures { OnOk result (Appends code.old.items code.new.items (condition.where_both sense (code_of (word_expr_of left.now) t).branch (code_of (word_expr_of right.now) t).branch (part_of yes) (short_part_of no))) }
{
    let mut inner = Vec::new(*code.allocator());
    condition(&mut inner, right, t, sense, yes, Part::Short(no))?;
    condition(code, left, t, sense, Part::Runs(inner), Part::Short(no))
}

// The first part needs one of the truths. It stands twice.
#[cycle(expressions)]
fn either(
    code: &mut Code,
    left: &WordExpr,
    right: &WordExpr,
    t: u8,
    sense: bool,
    yes: ShortPart,
    no: Part,
) -> Result<()>
    ensures { OnOk result (Appends code.old.items code.new.items (condition.where_either sense (code_of (word_expr_of left.now) t).branch (code_of (word_expr_of right.now) t).branch (short_part_of yes) (part_of no))) }
{
    let mut inner = Vec::new(*code.allocator());
    condition(&mut inner, right, t, sense, Part::Short(yes), no)?;
    condition(code, left, t, sense, Part::Short(yes), Part::Runs(inner))
}
