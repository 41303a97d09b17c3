//! What each operator makes of typed operands: ISO 9899:1990 6.1.3.2, and 6.3.3 to 6.3.17.
ghost use Rattle.c_rules.specs.Answers.{Follows};
ghost use Rattle.std.specs.Prelude.{◌≡◌, Some, IfOk, IfErr};
ghost use Rattle.c_tree.specs.Eval.{kind_of};
ghost use Rattle.c_tree.specs.View.{expr_of};
ghost use Rattle.c_rules.specs.declared.fault.Refusal.TheVariants as refusals;
ghost use Rattle.c_tree.specs.TypedTree.{Node, Unary, Binary, And, Or, Not, Pick, Comma};
ghost use Rattle.c_rules.specs.declared.fault.Rule.TheVariants as rule;
ghost use Rattle.c_rules.specs.Kinds.{class_of};
ghost use Rattle.c_rules.specs.Operands as rules;
ghost use Rattle.c_conversions.specs.OperandView.{operand_of};
ghost use Rattle.c_operands.specs.PairView.{pair_of, left_of, right_of};

use crate::pairs::{Pair, balanced, boxed, met};
use c_conversions::{INT, Operand, UNSIGNED, class_of, in_box, same_kind, word};
use c_rules::{Class, Refusal, Rule, mismatch};
use c_syntax::{BinaryOp, UnaryOp};
use c_tree::{ExprForm, ScalarType, TypedExpr};
use std::alloc::Global;

// An operator's node over two values.
fn binary_node(op: BinaryOp, at: u32, kind: Option<ScalarType>, pair: Pair) -> TypedExpr
    ensures { expr_of result ≡ Node (Binary op (expr_of pair.left.value) (expr_of pair.right.value)) kind at }
{
    let form = ExprForm::Binary {
        op,
        left: pair.left,
        right: pair.right,
    };
    TypedExpr { form, kind, at }
}

// An operator on two integers, whose value has their common type.
fn calculated(alloc: Global, op: BinaryOp, at: u32, pair: Pair) -> Result<TypedExpr, Refusal>
    ensures typed { IfOk result (λ e. expr_of e ≡ rules.calculated op at (rules.balanced (expr_of pair.left.value) (expr_of pair.right.value))) }
    ensures memory { IfErr result (λ f. f ≡ refusals.NoMemory) }
{
    let pair = balanced(alloc, pair)?;
    let kind = pair.left.kind;
    Ok(binary_node(op, at, kind, pair))
}

/// `+`: 6.3.6.
pub(crate) fn sum(alloc: Global, at: u32, pair: Pair) -> Result<TypedExpr, Refusal>
    ensures { Follows expr_of (rules.sum at (expr_of pair.left.value) (expr_of pair.right.value)) result }
{
    let (left, right) = (pair.left.kind, pair.right.kind);
    match (class_of(left), class_of(right)) {
        (Class::Integer, Class::Integer) => calculated(alloc, BinaryOp::Add, at, pair),
        (Class::Pointer, Class::Integer) => Ok(binary_node(BinaryOp::Add, at, left, pair)),
        (Class::Integer, Class::Pointer) => Ok(binary_node(BinaryOp::Add, at, right, pair)),
        _ => Err(mismatch(at)),
    }
}

// `-`: 6.3.6.
fn difference(alloc: Global, at: u32, pair: Pair) -> Result<TypedExpr, Refusal>
    ensures { Follows expr_of (rules.difference_as (class_of (kind_of (expr_of pair.left.value))) (class_of (kind_of (expr_of pair.right.value))) at (expr_of pair.left.value) (expr_of pair.right.value)) result }
{
    let kind = pair.left.kind;
    match (class_of(kind), class_of(pair.right.kind)) {
        (Class::Integer, Class::Integer) => calculated(alloc, BinaryOp::Sub, at, pair),
        (Class::Pointer, Class::Integer) => Ok(binary_node(BinaryOp::Sub, at, kind, pair)),
        (Class::Pointer, Class::Pointer) => pointers(BinaryOp::Sub, at, pair),
        _ => Err(mismatch(at)),
    }
}

// Two pointers of one type under an operator that gives an int.
fn pointers(op: BinaryOp, at: u32, pair: Pair) -> Result<TypedExpr, Refusal>
    ensures { Follows expr_of (rules.pointers op at (expr_of pair.left.value) (expr_of pair.right.value)) result }
{
    if same_kind(pair.left.kind, pair.right.kind) {
        return Ok(binary_node(op, at, Some(INT), pair));
    }
    Err(mismatch(at))
}

// `* / %` and `& ^ |`: 6.3.5 and 6.3.10 to 6.3.12.
fn product(alloc: Global, op: BinaryOp, at: u32, pair: Pair) -> Result<TypedExpr, Refusal>
    ensures { Follows expr_of (rules.product_as (class_of (kind_of (expr_of pair.left.value))) (class_of (kind_of (expr_of pair.right.value))) op at (expr_of pair.left.value) (expr_of pair.right.value)) result }
{
    match (class_of(pair.left.kind), class_of(pair.right.kind)) {
        (Class::Integer, Class::Integer) => calculated(alloc, op, at, pair),
        _ => Err(mismatch(at)),
    }
}

// `<<` and `>>`: 6.3.7. The value has the type of the left operand.
fn shift(op: BinaryOp, at: u32, pair: Pair) -> Result<TypedExpr, Refusal>
    ensures { Follows expr_of (rules.shift_as (class_of (kind_of (expr_of pair.left.value))) (class_of (kind_of (expr_of pair.right.value))) op at (expr_of pair.left.value) (expr_of pair.right.value)) result }
{
    let kind = pair.left.kind;
    match (class_of(kind), class_of(pair.right.kind)) {
        (Class::Integer, Class::Integer) => Ok(binary_node(op, at, kind, pair)),
        _ => Err(mismatch(at)),
    }
}

// `< > <= >=`: 6.3.8.
fn order(alloc: Global, op: BinaryOp, at: u32, pair: Pair) -> Result<TypedExpr, Refusal>
    ensures { Follows expr_of (rules.order_as (class_of (kind_of (expr_of pair.left.value))) (class_of (kind_of (expr_of pair.right.value))) op at (expr_of pair.left.value) (expr_of pair.right.value)) result }
{
    match (class_of(pair.left.kind), class_of(pair.right.kind)) {
        (Class::Integer, Class::Integer) => {
            let pair = balanced(alloc, pair)?;
            Ok(binary_node(op, at, Some(INT), pair))
        }
        (Class::Pointer, Class::Pointer) => pointers(op, at, pair),
        _ => Err(mismatch(at)),
    }
}

// `==` and `!=`: 6.3.9.
fn equality(
    alloc: Global,
    op: BinaryOp,
    at: u32,
    pair: Pair,
    left_null: bool,
    right_null: bool,
) -> Result<TypedExpr, Refusal>
    ensures { Follows expr_of (rules.typed_equality op at (left_of pair left_null) (right_of pair right_null)) result }
{
    let pair = met(alloc, at, pair, left_null, right_null)?;
    Ok(binary_node(op, at, Some(INT), pair))
}

/// An operator between two operands.
pub fn binary(
    alloc: Global,
    op: BinaryOp,
    at: u32,
    left: Operand,
    right: Operand,
) -> Result<TypedExpr, Refusal>
    ensures { Follows expr_of (rules.binary op at (operand_of left) (operand_of right)) result }
{
    let pair = boxed(alloc, left.value, right.value)?;
    match op {
        BinaryOp::Add => sum(alloc, at, pair),
        BinaryOp::Sub => difference(alloc, at, pair),
        BinaryOp::Mul
        | BinaryOp::Div
        | BinaryOp::Rem
        | BinaryOp::And
        | BinaryOp::Or
        | BinaryOp::Xor => product(alloc, op, at, pair),
        BinaryOp::Shl | BinaryOp::Shr => shift(op, at, pair),
        BinaryOp::Eq | BinaryOp::Ne => equality(alloc, op, at, pair, left.null, right.null),
        BinaryOp::Lt | BinaryOp::Gt | BinaryOp::Le | BinaryOp::Ge => order(alloc, op, at, pair),
    }
}

/// `+ - ~` before an integer: 6.3.3.3.
pub fn unary(alloc: Global, op: UnaryOp, at: u32, value: TypedExpr) -> Result<TypedExpr, Refusal>
    ensures { Follows expr_of (rules.unary op at (expr_of value)) result }
{
    let value = in_box(alloc, value)?;
    let kind = value.kind;
    if class_of(kind) != Class::Integer {
        return Err(mismatch(at));
    }
    let form = ExprForm::Unary { op, value };
    Ok(TypedExpr { form, kind, at })
}

/// `!`: 6.3.3.3.
pub fn negated(alloc: Global, at: u32, value: TypedExpr) -> Result<TypedExpr, Refusal>
    ensures { Follows expr_of (rules.negated at (expr_of value)) result }
{
    let value = in_box(alloc, value)?;
    if value.kind.is_none() {
        return Err(mismatch(at));
    }
    Ok(TypedExpr {
        form: ExprForm::Not(value),
        kind: Some(INT),
        at,
    })
}

/// `&&`: 6.3.13.
pub fn both_true(
    alloc: Global,
    at: u32,
    left: TypedExpr,
    right: TypedExpr,
) -> Result<TypedExpr, Refusal>
    ensures { Follows expr_of (rules.both_true at (expr_of left) (expr_of right)) result }
{
    let pair = boxed(alloc, left, right)?;
    if pair.left.kind.is_none() || pair.right.kind.is_none() {
        return Err(mismatch(at));
    }
    let form = ExprForm::And {
        left: pair.left,
        right: pair.right,
    };
    Ok(TypedExpr {
        form,
        kind: Some(INT),
        at,
    })
}

/// `||`: 6.3.14.
pub fn either_true(
    alloc: Global,
    at: u32,
    left: TypedExpr,
    right: TypedExpr,
) -> Result<TypedExpr, Refusal>
    ensures { Follows expr_of (rules.either_true at (expr_of left) (expr_of right)) result }
{
    let pair = boxed(alloc, left, right)?;
    if pair.left.kind.is_none() || pair.right.kind.is_none() {
        return Err(mismatch(at));
    }
    let form = ExprForm::Or {
        left: pair.left,
        right: pair.right,
    };
    Ok(TypedExpr {
        form,
        kind: Some(INT),
        at,
    })
}

/// One of two arms, which come to one type or are both void: 6.3.15.
pub fn picked(
    alloc: Global,
    at: u32,
    test: TypedExpr,
    yes: Operand,
    no: Operand,
) -> Result<TypedExpr, Refusal>
    ensures { Follows expr_of (rules.picked at (expr_of test) (operand_of yes) (operand_of no)) result }
{
    // All three are boxed before it is looked whether there was memory.
    let test = in_box(alloc, test);
    let pair = boxed(alloc, yes.value, no.value)?;
    let test = test?;
    if test.kind.is_none() {
        return Err(mismatch(at));
    }
    let pair = arms(alloc, at, pair, yes.null, no.null)?;
    let kind = pair.left.kind;
    let form = ExprForm::Pick {
        test,
        yes: pair.left,
        no: pair.right,
    };
    Ok(TypedExpr { form, kind, at })
}

fn arms(alloc: Global, at: u32, pair: Pair, yes_null: bool, no_null: bool) -> Result<Pair, Refusal>
    ensures { Follows pair_of (rules.arms_as (class_of (kind_of (expr_of pair.left.value))) (class_of (kind_of (expr_of pair.right.value))) at (left_of pair yes_null) (right_of pair no_null)) result }
{
    if pair.left.kind.is_none() && pair.right.kind.is_none() {
        return Ok(pair);
    }
    met(alloc, at, pair, yes_null, no_null)
}

/// A comma, one value behind another: 6.3.17.
pub fn behind(
    alloc: Global,
    at: u32,
    left: TypedExpr,
    right: TypedExpr,
) -> Result<TypedExpr, Refusal>
    ensures typed { IfOk result (λ e. expr_of e ≡ rules.typed_comma at (expr_of left) (expr_of right)) }
    ensures memory { IfErr result (λ f. f ≡ refusals.NoMemory) }
{
    let pair = boxed(alloc, left, right)?;
    let kind = pair.right.kind;
    let form = ExprForm::Comma {
        left: pair.left,
        right: pair.right,
    };
    Ok(TypedExpr { form, kind, at })
}

/// `sizeof` a value, which is the length of an array, or one word: 6.3.3.4.
pub fn sized(length: Option<u16>, at: u32, value: &TypedExpr) -> Result<TypedExpr, Refusal>
    ensures { Follows expr_of (rules.sized length at (expr_of value.now)) result }
{
    match length {
        Some(length) => Ok(word(length, UNSIGNED, at)),
        None if value.kind.is_none() => Err(mismatch(at)),
        None => Ok(word(1, UNSIGNED, at)),
    }
}

/// A constant: 6.1.3.2. One that isn't marked as unsigned is an int where it fits, and a decimal one has to fit.
pub fn number(value: u32, marked: bool, decimal: bool, at: u32) -> Result<TypedExpr, Refusal>
    ensures { Follows expr_of (rules.typed_number value marked decimal at) result }
{
    let Ok(value) = u16::try_from(value) else {
        return Err(long_constant(at));
    };
    if marked {
        return Ok(word(value, UNSIGNED, at));
    }
    if value < 0x8000 {
        return Ok(word(value, INT, at));
    }
    if decimal {
        return Err(long_constant(at));
    }
    Ok(word(value, UNSIGNED, at))
}

fn long_constant(at: u32) -> Refusal
    ensures { result ≡ refusals.Broken rule.LongConstant at }
{
    Refusal::Broken {
        rule: Rule::LongConstant,
        at,
    }
}
