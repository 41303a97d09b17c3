//! The typed tree of an expression: ISO 9899:1990 6.3, and of one that has to be constant: 6.4.
ghost use Rattle.c_rules.specs.Answers.{Follows, Refuses};
ghost use Rattle.std.specs.Prelude.{◌≡◌, IfErr, IfOk, Some, map};
ghost use Rattle.c_tree.specs.View.{expr_of};
ghost use Rattle.c_tree.specs.TypedTree.{Node, Const};
ghost use Rattle.c_syntax.specs.SyntaxTree as tree;
ghost use Rattle.c_syntax.specs.SyntaxView.{expression_of, trees_of, type_of};
ghost use Rattle.c_rules.specs.Outcome.{Is};
ghost use Rattle.c_rules.specs.Scopes.{Scope};
ghost use Rattle.c_scopes.specs.Sides.{left_then};
ghost use Rattle.c_rules.specs.Kinds.{int};
ghost use Rattle.c_conversions.specs.OperandView.{operand_of};
ghost use Rattle.c_scopes.specs.ArgumentView.{arguments_of};
ghost use Rattle.c_names.specs.Tables.{scope_of};
ghost use Rattle.c_rules.specs.Typing as rules;

use crate::call_arguments::{Arguments, call_of, constant_call_of, word_of};
use crate::names::named;
use c_conversions::{INT, Operand, UNSIGNED, class_of};
use c_names::{Scopes, is_in, is_out};
use c_objects::{add, is_null, type_named};
use c_operands::{
    address, assigned, assigned_by, behind, both_true, either_true, indexed, loaded, negated,
    not_lvalue, number, picked, sized, stepped_after, stepped_before, unary,
};
use c_rules::{Refusal, mismatch};
use c_syntax::{BinaryOp, Expr, ExprKind, PrefixOp, TypeName, UnaryOp};
use c_tree::{ExprForm, TypedExpr};
use std::alloc::Global;

/// The typed sides of a form of two.
#[derive(Drop)]
struct TypedSides {
    left: Box<TypedExpr>,
    right: Box<TypedExpr>,
}

/// The typed tree of an expression.
#[cycle(expressions)]
pub fn expression(scopes: &Scopes<'_>, e: &Expr) -> Result<TypedExpr, Refusal>
    ensures { Follows expr_of (rules.typing (scope_of scopes.now) (expression_of e.now)) result }
{
    let at = e.at;
    match &e.kind {
        ExprKind::Name(name) => named(scopes, name.as_str(), at),
        ExprKind::Number {
            value,
            unsigned_mark,
            decimal,
        } => number(*value, *unsigned_mark, *decimal, at),
        ExprKind::Char(value) => Ok(character(*value, at)),
        ExprKind::Index { operand, index } => subscript(scopes, at, operand, index),
        ExprKind::Call { name, arguments } => call(scopes, name.as_str(), at, arguments),
        ExprKind::StepAfter { up, operand } => step_after(scopes, *up, at, operand),
        ExprKind::StepBefore { up, operand } => step_before(scopes, *up, at, operand),
        ExprKind::Prefix { op, operand } => prefix(scopes, *op, at, operand),
        ExprKind::SizeofValue(operand) => size(scopes, at, operand),
        ExprKind::SizeofType(to) => size_of_type(to, at),
        ExprKind::Cast { to, operand } => cast(scopes, to, at, operand),
        ExprKind::Binary { op, left, right } => binary(scopes, *op, at, left, right),
        ExprKind::And { left, right } => both(scopes, at, left, right),
        ExprKind::Or { left, right } => either(scopes, at, left, right),
        ExprKind::Conditional { test, yes, no } => conditional(scopes, at, test, yes, no),
        ExprKind::Assign { left, right } => assignment(scopes, at, left, right),
        ExprKind::AssignOp { op, left, right } => assignment_by(scopes, *op, at, left, right),
        ExprKind::Comma { left, right } => comma(scopes, at, left, right),
    }
}

/// A value, and whether its text is that of a null pointer.
#[cycle(expressions)]
pub fn operand(scopes: &Scopes<'_>, e: &Expr) -> Result<Operand, Refusal>
    ensures follows { Follows (λ x. expr_of x.value) (rules.typing (scope_of scopes.now) (expression_of e.now)) result }
    ensures null { IfOk result (λ x. x.null ≡ rules.is_null (expression_of e.now)) }
{
    let value = expression(scopes, e)?;
    let null = is_null(e);
    Ok(Operand { value, null })
}

// The typed tree of an expression, in a box: while another is typed, it stays closed.
#[cycle(expressions)]
fn boxed(scopes: &Scopes<'_>, e: &Expr) -> Result<Box<TypedExpr>, Refusal>
    ensures { Follows (λ x. expr_of x.value) (rules.typing (scope_of scopes.now) (expression_of e.now)) result }
{
    let typed = expression(scopes, e)?;
    c_objects::boxed(scopes.alloc, typed)
}

// Two expressions, from left to right.
#[cycle(expressions)]
fn sides(scopes: &Scopes<'_>, left: &Expr, right: &Expr) -> Result<TypedSides, Refusal>
    ensures left { IfOk result (λ sides. rules.typing (scope_of scopes.now) (expression_of left.now) ≡ Is (expr_of sides.left.value)) }
    ensures right { IfOk result (λ sides. rules.typing (scope_of scopes.now) (expression_of right.now) ≡ Is (expr_of sides.right.value)) }
    ensures refused { IfErr result (Refuses (left_then (scope_of scopes.now) (expression_of left.now) (expression_of right.now))) }
{
    let left = boxed(scopes, left)?;
    let right = boxed(scopes, right)?;
    Ok(TypedSides { left, right })
}

#[cycle(expressions)]
fn subscript(
    scopes: &Scopes<'_>,
    at: u32,
    operand: &Expr,
    index: &Expr,
) -> Result<TypedExpr, Refusal>
    ensures { Follows expr_of (rules.typing_form (scope_of scopes.now) (tree.Index (expression_of operand.now) (expression_of index.now)) at) result }
{
    let TypedSides { left, right } = sides(scopes, operand, index)?;
    indexed(
        scopes.alloc,
        at,
        Box::into_inner(left),
        Box::into_inner(right),
    )
}

#[cycle(expressions)]
fn step_after(scopes: &Scopes<'_>, up: bool, at: u32, operand: &Expr) -> Result<TypedExpr, Refusal>
    ensures { Follows expr_of (rules.typing_form (scope_of scopes.now) (tree.StepAfter up (expression_of operand.now)) at) result }
{
    let stepped = stepped_after(up, at, expression(scopes, operand)?)?;
    of_object(is_address(operand), at, stepped)
}

#[cycle(expressions)]
fn step_before(scopes: &Scopes<'_>, up: bool, at: u32, operand: &Expr) -> Result<TypedExpr, Refusal>
    ensures { Follows expr_of (rules.typing_form (scope_of scopes.now) (tree.StepBefore up (expression_of operand.now)) at) result }
{
    let stepped = stepped_before(up, at, expression(scopes, operand)?)?;
    of_object(is_address(operand), at, stepped)
}

#[cycle(expressions)]
fn prefix(scopes: &Scopes<'_>, op: PrefixOp, at: u32, operand: &Expr) -> Result<TypedExpr, Refusal>
    ensures { Follows expr_of (rules.typing_form (scope_of scopes.now) (tree.Prefix op (expression_of operand.now)) at) result }
{
    let value = expression(scopes, operand)?;
    let is_array = scopes.array_length(operand).is_some();
    let typed = prefixed(scopes.alloc, op, is_array, at, value)?;
    of_object(takes_address(op) && is_address(operand), at, typed)
}

#[cycle(expressions)]
fn size(scopes: &Scopes<'_>, at: u32, operand: &Expr) -> Result<TypedExpr, Refusal>
    ensures { Follows expr_of (rules.typing_form (scope_of scopes.now) (tree.SizeofValue (expression_of operand.now)) at) result }
{
    let value = expression(scopes, operand)?;
    let typed = sized(scopes.array_length(operand), at, &value);
    drop(value);
    typed
}

#[cycle(expressions)]
fn cast(scopes: &Scopes<'_>, to: &TypeName, at: u32, value: &Expr) -> Result<TypedExpr, Refusal>
    ensures { Follows expr_of (rules.typing_form (scope_of scopes.now) (tree.Cast (type_of to.now) (expression_of value.now)) at) result }
{
    let kind = type_named(to)?;
    let value = operand(scopes, value)?;
    c_conversions::cast(scopes.alloc, kind, at, value)
}

#[cycle(expressions)]
fn binary(
    scopes: &Scopes<'_>,
    op: BinaryOp,
    at: u32,
    left: &Expr,
    right: &Expr,
) -> Result<TypedExpr, Refusal>
    ensures { Follows expr_of (rules.typing_form (scope_of scopes.now) (tree.Binary op (expression_of left.now) (expression_of right.now)) at) result }
{
    let typed = sides(scopes, left, right)?;
    c_operands::binary(
        scopes.alloc,
        op,
        at,
        unboxed(left, typed.left),
        unboxed(right, typed.right),
    )
}

#[cycle(expressions)]
fn both(scopes: &Scopes<'_>, at: u32, left: &Expr, right: &Expr) -> Result<TypedExpr, Refusal>
    ensures { Follows expr_of (rules.typing_form (scope_of scopes.now) (tree.And (expression_of left.now) (expression_of right.now)) at) result }
{
    let TypedSides { left, right } = sides(scopes, left, right)?;
    both_true(
        scopes.alloc,
        at,
        Box::into_inner(left),
        Box::into_inner(right),
    )
}

#[cycle(expressions)]
fn either(scopes: &Scopes<'_>, at: u32, left: &Expr, right: &Expr) -> Result<TypedExpr, Refusal>
    ensures { Follows expr_of (rules.typing_form (scope_of scopes.now) (tree.Or (expression_of left.now) (expression_of right.now)) at) result }
{
    let TypedSides { left, right } = sides(scopes, left, right)?;
    either_true(
        scopes.alloc,
        at,
        Box::into_inner(left),
        Box::into_inner(right),
    )
}

#[cycle(expressions)]
fn conditional(
    scopes: &Scopes<'_>,
    at: u32,
    test: &Expr,
    yes: &Expr,
    no: &Expr,
) -> Result<TypedExpr, Refusal>
    ensures { Follows expr_of (rules.typing_form (scope_of scopes.now) (tree.Conditional (expression_of test.now) (expression_of yes.now) (expression_of no.now)) at) result }
{
    let test = boxed(scopes, test)?;
    let arms = sides(scopes, yes, no)?;
    picked(
        scopes.alloc,
        at,
        Box::into_inner(test),
        unboxed(yes, arms.left),
        unboxed(no, arms.right),
    )
}

#[cycle(expressions)]
fn assignment(scopes: &Scopes<'_>, at: u32, left: &Expr, right: &Expr) -> Result<TypedExpr, Refusal>
    ensures { Follows expr_of (rules.typing_form (scope_of scopes.now) (tree.Assign (expression_of left.now) (expression_of right.now)) at) result }
{
    let typed = sides(scopes, left, right)?;
    let to = Box::into_inner(typed.left);
    let written = assigned(scopes.alloc, at, to, unboxed(right, typed.right))?;
    of_object(is_address(left), at, written)
}

#[cycle(expressions)]
fn assignment_by(
    scopes: &Scopes<'_>,
    op: BinaryOp,
    at: u32,
    left: &Expr,
    right: &Expr,
) -> Result<TypedExpr, Refusal>
    ensures { Follows expr_of (rules.typing_form (scope_of scopes.now) (tree.AssignOp op (expression_of left.now) (expression_of right.now)) at) result }
{
    let typed = sides(scopes, left, right)?;
    let to = Box::into_inner(typed.left);
    let value = Box::into_inner(typed.right);
    let written = assigned_by(scopes.alloc, op, at, to, value)?;
    of_object(is_address(left), at, written)
}

#[cycle(expressions)]
fn comma(scopes: &Scopes<'_>, at: u32, left: &Expr, right: &Expr) -> Result<TypedExpr, Refusal>
    ensures { Follows expr_of (rules.typing_form (scope_of scopes.now) (tree.Comma (expression_of left.now) (expression_of right.now)) at) result }
{
    let TypedSides { left, right } = sides(scopes, left, right)?;
    behind(
        scopes.alloc,
        at,
        Box::into_inner(left),
        Box::into_inner(right),
    )
}

// The typed tree of a call.
#[cycle(expressions)]
fn call(scopes: &Scopes<'_>, name: &str, at: u32, list: &[Expr]) -> Result<TypedExpr, Refusal>
    ensures { Follows expr_of (rules.typing_form (scope_of scopes.now) (tree.Call name.now (trees_of list.now)) at) result }
{
    let arguments = arguments(scopes, name, list)?;
    call_of(scopes, name, at, arguments)
}

// What stands between the parentheses of a call.
#[cycle(expressions)]
fn arguments(scopes: &Scopes<'_>, name: &str, list: &[Expr]) -> Result<Arguments, Refusal>
    ensures { Follows arguments_of (rules.arguments (scope_of scopes.now) name.now (trees_of list.now)) result }
{
    if is_in(name) || is_out(name) {
        return port_arguments(scopes, list);
    }
    Ok(Arguments::Operands(operands(scopes, list)?))
}

// The number of a port, which has to be constant, and the operands behind it.
#[cycle(expressions)]
fn port_arguments(scopes: &Scopes<'_>, list: &[Expr]) -> Result<Arguments, Refusal>
    ensures { Follows arguments_of (rules.port_arguments (scope_of scopes.now) (trees_of list.now)) result }
{
    let Some((first, rest)) = list.split_first() else {
        return Ok(Arguments::NoPort);
    };
    let value = constant_tree(scopes, first)?;
    let class = class_of(value.kind);
    let port = word_of(first, value)?;
    Ok(Arguments::Port {
        class,
        port,
        behind: operands(scopes, rest)?,
    })
}

// Arguments, from left to right.
#[cycle(expressions)]
fn operands(scopes: &Scopes<'_>, list: &[Expr]) -> Result<Vec<Operand>, Refusal>
    ensures { Follows (λ xs. map operand_of xs.items) (rules.operands (scope_of scopes.now) (trees_of list.now)) result }
{
    let mut operands = Vec::new(scopes.alloc);
    for e in list {
        add(&mut operands, operand(scopes, e)?)?;
    }
    Ok(operands)
}

/// The typed tree of an expression that has to be constant.
#[cycle(expressions)]
pub fn constant_tree(scopes: &Scopes<'_>, e: &Expr) -> Result<TypedExpr, Refusal>
    ensures { Follows expr_of (rules.constant_typing (scope_of scopes.now) (expression_of e.now)) result }
{
    match &e.kind {
        ExprKind::Call { name, arguments } => {
            constant_call(scopes, name.as_str(), e.at, arguments)
        }
        _ => expression(scopes, e),
    }
}

// The typed tree of a call that has to be constant.
#[cycle(expressions)]
fn constant_call(
    scopes: &Scopes<'_>,
    name: &str,
    at: u32,
    list: &[Expr],
) -> Result<TypedExpr, Refusal>
    ensures { Follows expr_of (rules.constant_typing (scope_of scopes.now) (tree.Node (tree.Call name.now (trees_of list.now)) at)) result }
{
    let arguments = arguments(scopes, name, list)?;
    constant_call_of(scopes, name, at, arguments)
}

// A character constant, which is an int.
fn character(value: u16, at: u32) -> TypedExpr
    ensures { expr_of result ≡ Node (Const value) (Some int) at }
{
    TypedExpr {
        form: ExprForm::Const(value),
        kind: Some(INT),
        at,
    }
}

// The operand of a value that was put in a box.
fn unboxed(e: &Expr, value: Box<TypedExpr>) -> Operand
    ensures value { result.value ≡ value.value }
    ensures null { result.null ≡ rules.is_null (expression_of e.now) }
{
    Operand {
        value: Box::into_inner(value),
        null: is_null(e),
    }
}

// An operator before an operand.
fn prefixed(
    alloc: Global,
    op: PrefixOp,
    is_array: bool,
    at: u32,
    value: TypedExpr,
) -> Result<TypedExpr, Refusal>
    ensures { Follows expr_of (rules.prefixed op is_array at (expr_of value)) result }
{
    match op {
        PrefixOp::Address => address(is_array, at, value),
        PrefixOp::Pointed => loaded(alloc, at, value),
        PrefixOp::Plus => unary(alloc, UnaryOp::Plus, at, value),
        PrefixOp::Minus => unary(alloc, UnaryOp::Minus, at, value),
        PrefixOp::Complement => unary(alloc, UnaryOp::Complement, at, value),
        PrefixOp::Not => negated(alloc, at, value),
    }
}

// `sizeof` of a type: one word.
fn size_of_type(to: &TypeName, at: u32) -> Result<TypedExpr, Refusal>
    ensures { (s : Scope) → Follows expr_of (rules.typing_form s (tree.SizeofType (type_of to.now)) at) result }
{
    if type_named(to)?.is_none() {
        return Err(mismatch(to.specs.at));
    }
    Ok(TypedExpr {
        form: ExprForm::Const(1),
        kind: Some(UNSIGNED),
        at,
    })
}

// Whether an expression is an address by its text.
fn is_address(e: &Expr) -> bool
    ensures { result ≡ rules.is_address (expression_of e.now) }
{
    match &e.kind {
        ExprKind::Prefix { op, .. } => takes_address(*op),
        _ => false,
    }
}

fn takes_address(op: PrefixOp) -> bool
    ensures { result ≡ rules.takes_address op }
{
    match op {
        PrefixOp::Address => true,
        PrefixOp::Pointed
        | PrefixOp::Plus
        | PrefixOp::Minus
        | PrefixOp::Complement
        | PrefixOp::Not => false,
    }
}

// What writes to an operand or takes its address, unless the operand is no object by its text: the tree of `&*e` is that of `e`.
fn of_object(no_object: bool, at: u32, typed: TypedExpr) -> Result<TypedExpr, Refusal>
    ensures { Follows expr_of (rules.of_object no_object at (expr_of typed)) result }
{
    if no_object {
        drop(typed);
        return Err(not_lvalue(at));
    }
    Ok(typed)
}
