//! Constant expressions: ISO 9899:1990 6.4.
ghost use Rattle.std.specs.Prelude.{◌≡◌};
ghost use Rattle.c_syntax.specs.SyntaxView.{expression_of};
ghost use Rattle.c_tree.specs.View.{expr_of};
ghost use Rattle.c_rules.specs.Constants as constants;
ghost use Rattle.c_conversions.specs.ConstantWords.{valued};

use c_syntax::{BinaryOp, Expr, ExprKind, UnaryOp};
use c_tree::{
    ExprForm, ScalarType, TypedExpr, int_binary, int_unary, is_unsigned, points, truth,
    unsigned_binary, unsigned_unary, without_sign,
};

/// The word of a constant expression, which is typed as this.
pub fn constant(e: &Expr, x: &TypedExpr) -> Option<u16>
    ensures { result ≡ constants.constant (expression_of e.now) (expr_of x.now) }
{
    if is_fixed(e) { word_of(x) } else { None }
}

/// Whether an expression is without names of objects, calls, assignments, steps and commas, also under sizeof.
pub(crate) fn is_fixed(e: &Expr) -> bool
    ensures { result ≡ constants.is_fixed (expression_of e.now) }
{
    match &e.kind {
        ExprKind::Number { .. } | ExprKind::Char(_) | ExprKind::SizeofType(_) => true,
        ExprKind::Prefix { operand, .. } | ExprKind::Cast { operand, .. } => is_fixed(operand),
        ExprKind::SizeofValue(operand) => is_fixed(operand),
        ExprKind::Index { operand, index } => is_fixed(operand) && is_fixed(index),
        ExprKind::Binary { left, right, .. } => is_fixed(left) && is_fixed(right),
        ExprKind::And { left, right } | ExprKind::Or { left, right } => {
            is_fixed(left) && is_fixed(right)
        }
        ExprKind::Conditional { test, yes, no } => {
            is_fixed(test) && is_fixed(yes) && is_fixed(no)
        }
        ExprKind::Name(_)
        | ExprKind::Call { .. }
        | ExprKind::StepAfter { .. }
        | ExprKind::StepBefore { .. }
        | ExprKind::Assign { .. }
        | ExprKind::AssignOp { .. }
        | ExprKind::Comma { .. } => false,
    }
}

/// The word of an expression that computes one from constants alone; that of the null pointer is 0.
pub(crate) fn word_of(e: &TypedExpr) -> Option<u16>
    ensures { result ≡ constants.word_of (expr_of e.now) }
{
    match &e.form {
        ExprForm::Const(word) => Some(*word),
        ExprForm::Unary { op, value } => of_one(*op, e.kind, word_of(value)),
        ExprForm::Binary { op, left, right } => {
            of_two(*op, left.kind, right.kind, word_of(left), word_of(right))
        }
        ExprForm::And { left, right } => {
            tested(word_of(left), truth_of(word_of(right)), Some(0))
        }
        ExprForm::Or { left, right } => { tested(word_of(left), Some(1), truth_of(word_of(right))) }
        ExprForm::Not(value) => tested(word_of(value), Some(0), Some(1)),
        ExprForm::Pick { test, yes, no } => tested(word_of(test), word_of(yes), word_of(no)),
        ExprForm::Convert(value) => valued(e.kind, word_of(value)),
        _ => None,
    }
}

// What stands behind a test: the last where the word is 0.
fn tested(test: Option<u16>, other: Option<u16>, zero_case: Option<u16>) -> Option<u16>
    ensures { result ≡ constants.tested test other zero_case }
{
    match test? {
        0 => zero_case,
        _ => other,
    }
}

// The truth value of a word.
fn truth_of(word: Option<u16>) -> Option<u16>
    ensures { result ≡ constants.truth_of word }
{
    Some(truth(word? != 0))
}

// A word of this type: there is none of void.
fn valued(kind: Option<ScalarType>, word: Option<u16>) -> Option<u16>
    ensures { result ≡ valued kind word }
{
    if kind.is_some() { word } else { None }
}

// An operator on a word of this type.
fn of_one(op: UnaryOp, kind: Option<ScalarType>, a: Option<u16>) -> Option<u16>
    ensures { result ≡ constants.word_of_one op kind a }
{
    let a = a?;
    if is_unsigned(kind) {
        Some(unsigned_unary(op, a))
    } else {
        int_unary(op, a).ok()
    }
}

// An operator on two words of these types, where both are there.
fn of_two(
    op: BinaryOp,
    left: Option<ScalarType>,
    right: Option<ScalarType>,
    a: Option<u16>,
    b: Option<u16>,
) -> Option<u16>
    ensures { result ≡ constants.word_of_two op left right a b }
{
    match (a, b) {
        (Some(a), Some(b)) => calculated(op, left, right, a, b),
        _ => None,
    }
}

// Of two null pointers it is only known whether they are equal.
fn calculated(
    op: BinaryOp,
    left: Option<ScalarType>,
    right: Option<ScalarType>,
    a: u16,
    b: u16,
) -> Option<u16>
    ensures { result ≡ constants.calculated op left right a b }
{
    if (points(left) || points(right)) && !compares(op) {
        None
    } else if without_sign(op, left, right) {
        unsigned_binary(op, a, b).ok()
    } else {
        int_binary(op, a, b).ok()
    }
}

fn compares(op: BinaryOp) -> bool
    ensures { result ≡ constants.compares op }
{
    matches!(op, BinaryOp::Eq | BinaryOp::Ne)
}
