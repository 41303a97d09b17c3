//! How many temporaries the code of a word tree needs.
//!
//! The code of an operator keeps its left operand in one while it evaluates the right one, unless that one is simple. Counts
//! stop at 255, which no statement of a program comes to.
ghost use Rattle.std.specs.Prelude.{◌≡◌, ◌≤◌, ◌+◌, ℕ, max};
ghost use Rattle.c_tree.specs.declared.limits.TheConstants.{MOST_FRAME_SCALARS};
ghost use Rattle.tree_code.specs.WordTree.{no_more, Node, Unary, Binary, Assign, AssignOp};
ghost use Rattle.c_tree.specs.c_syntax.declared.operator.UnaryOp.TheVariants.{Minus};
ghost use Rattle.tree_code.specs.declared.operator.WordOp.{WordOp};
ghost use Rattle.tree_code.specs.WordView.{word_expr_of, word_lvalue_of, word_argument_list, optional_word_of, word_stmt_of, word_statement_list, word_choice_list, word_choice_before};
ghost use Rattle.tree_code.specs.ByteCount.{in_byte};
ghost use Rattle.tree_code.specs.OperandForms.{constant_form, simple_form};
ghost use Rattle.tree_code.specs.WordTemporaries as counts;

use crate::word_expression::{WordExpr, WordForm, WordTarget, WordTargetForm};
use crate::word_statement::{WordChoice, WordStmt};
use c_tree::UnaryOp;

/// The number of temporaries of a statement. They follow the scalars of the source in a frame, which has few of both.
pub fn temporaries(s: &WordStmt) -> u8
    requires { counts.word_statement_temporaries (word_stmt_of s.now) ≤ MOST_FRAME_SCALARS }
    ensures { result ≡ counts.word_statement_temporaries (word_stmt_of s.now) }
{
    statement(s)
}

/// What an operand is.
#[derive(Clone, Copy)]
pub(crate) enum OperandForm {
    /// A constant, a minus on one, or an address.
    Constant,
    /// The read of a name.
    Name,
    /// What has to be computed.
    Computed,
}

/// Whether an operand is a constant, a minus on one, or an address.
pub fn is_constant(e: &WordExpr) -> bool
    ensures { result ≡ counts.is_constant_word (word_expr_of e.now) }
{
    match operand_form(e) {
        OperandForm::Constant => true,
        OperandForm::Name | OperandForm::Computed => false,
    }
}

fn operand_form(e: &WordExpr) -> OperandForm
    ensures constant { constant_form result ≡ counts.is_constant_word (word_expr_of e.now) }
    ensures simple { simple_form result ≡ counts.is_simple_word (word_expr_of e.now) }
{
    match &e.form {
        WordForm::Const(_) => OperandForm::Constant,
        WordForm::AddressOf(_) => OperandForm::Constant,
        WordForm::Read(_) => OperandForm::Name,
        WordForm::Unary { op, value } => signed_form(*op, value),
        _ => OperandForm::Computed,
    }
}

// What an operator on this is.
fn signed_form(op: UnaryOp, e: &WordExpr) -> OperandForm
    ensures constant { (at : ℕ) → constant_form result ≡ counts.is_constant_word (Node (Unary op (word_expr_of e.now)) at) }
    ensures simple { (at : ℕ) → simple_form result ≡ counts.is_simple_word (Node (Unary op (word_expr_of e.now)) at) }
{
    match op {
        UnaryOp::Minus => negative_form(e),
        UnaryOp::Plus | UnaryOp::Complement => OperandForm::Computed,
    }
}

// What a minus on this is.
fn negative_form(e: &WordExpr) -> OperandForm
    ensures constant { (at : ℕ) → constant_form result ≡ counts.is_constant_word (Node (Unary Minus (word_expr_of e.now)) at) }
    ensures simple { (at : ℕ) → simple_form result ≡ counts.is_simple_word (Node (Unary Minus (word_expr_of e.now)) at) }
{
    match &e.form {
        WordForm::Const(_) => OperandForm::Constant,
        _ => OperandForm::Computed,
    }
}

// So many with those that are kept while an operand is evaluated, unless it is simple.
fn behind(kept: u8, e: &WordExpr, count: u8) -> u8
    requires { count ≡ in_byte (counts.word_temporaries (word_expr_of e.now)) }
    ensures { result ≡ in_byte (counts.unless_simple_word (word_expr_of e.now) (kept + counts.word_temporaries (word_expr_of e.now))) }
{
    match operand_form(e) {
        OperandForm::Constant | OperandForm::Name => 0,
        OperandForm::Computed => kept.saturating_add(count),
    }
}

fn larger(a: u8, b: u8) -> u8
    ensures { (m n : ℕ) → a ≡ in_byte m → b ≡ in_byte n → result ≡ in_byte (max m n) }
{
    if a < b { b } else { a }
}

// An operator on two operands that want so many.
fn binary(left: &WordExpr, first: u8, right: &WordExpr, second: u8) -> u8
    requires first { first ≡ in_byte (counts.word_temporaries (word_expr_of left.now)) }
    requires second { second ≡ in_byte (counts.word_temporaries (word_expr_of right.now)) }
    ensures { (op : WordOp) → result ≡ in_byte (counts.word_form_temporaries (Binary op (word_expr_of left.now) (word_expr_of right.now))) }
{
    match operand_form(left) {
        OperandForm::Constant => larger(first, second),
        OperandForm::Name | OperandForm::Computed => larger(first, behind(1, right, second)),
    }
}

fn assignment(to: &WordTarget, first: u8, value: &WordExpr, second: u8) -> u8
    requires first { first ≡ in_byte (counts.word_target_temporaries (word_lvalue_of to.now.form to.now.at)) }
    requires second { second ≡ in_byte (counts.word_temporaries (word_expr_of value.now)) }
    ensures { result ≡ in_byte (counts.word_form_temporaries (Assign (word_lvalue_of to.now.form to.now.at) (word_expr_of value.now))) }
{
    match &to.form {
        WordTargetForm::Named(_) => second,
        WordTargetForm::At(_) => larger(first, behind(1, value, second)),
    }
}

// An assignment by an operator, which keeps what was there as well.
fn update(to: &WordTarget, first: u8, value: &WordExpr, second: u8) -> u8
    requires first { first ≡ in_byte (counts.word_target_temporaries (word_lvalue_of to.now.form to.now.at)) }
    requires second { second ≡ in_byte (counts.word_temporaries (word_expr_of value.now)) }
    ensures { (op : WordOp) → result ≡ in_byte (counts.word_form_temporaries (AssignOp op (word_lvalue_of to.now.form to.now.at) (word_expr_of value.now))) }
{
    match &to.form {
        WordTargetForm::Named(_) => behind(1, value, second),
        WordTargetForm::At(_) => larger(first, behind(2, value, second)),
    }
}

#[cycle(expressions)]
fn expression(e: &WordExpr) -> u8
    ensures { result ≡ in_byte (counts.word_temporaries (word_expr_of e.now)) }
{
    match &e.form {
        WordForm::Const(_) => 0,
        WordForm::Read(_) => 0,
        WordForm::AddressOf(_) => 0,
        WordForm::In { .. } => 0,
        WordForm::Load(value) => expression(value),
        WordForm::Not(value) => expression(value),
        WordForm::Unary { value, .. } => expression(value),
        WordForm::Out { value, .. } => expression(value),
        WordForm::And { left, right } => larger(expression(left), expression(right)),
        WordForm::Or { left, right } => larger(expression(left), expression(right)),
        WordForm::Comma { left, right } => larger(expression(left), expression(right)),
        WordForm::Binary { left, right, .. } => {
            binary(left, expression(left), right, expression(right))
        }
        WordForm::Pick { test, yes, no } => {
            larger(expression(test), larger(expression(yes), expression(no)))
        }
        WordForm::Assign { to, value } => assignment(to, target(to), value, expression(value)),
        WordForm::AssignOp { to, value, .. } => update(to, target(to), value, expression(value)),
        WordForm::StepBefore { to, .. } => target(to),
        WordForm::StepAfter { to, .. } => target(to),
        WordForm::Call { args, .. } => arguments(args),
    }
}

#[cycle(expressions)]
fn target(to: &WordTarget) -> u8
    ensures { result ≡ in_byte (counts.word_target_temporaries (word_lvalue_of to.now.form to.now.at)) }
{
    match &to.form {
        WordTargetForm::Named(_) => 0,
        WordTargetForm::At(pointer) => expression(pointer),
    }
}

// Each argument is kept until the call, other than the last.
#[cycle(expressions)]
fn arguments(list: &[WordExpr]) -> u8
    ensures { result ≡ in_byte (counts.word_argument_temporaries (word_argument_list list.now)) }
{
    let mut kept: u8 = 0;
    let mut most = 0;
    for e in list {
        most = larger(most, kept.saturating_add(expression(e)));
        kept = kept.saturating_add(1);
    }
    most
}

fn optional(e: &Option<WordExpr>) -> u8
    ensures { result ≡ in_byte (counts.optional_word_temporaries (optional_word_of e.now)) }
{
    match e {
        Some(e) => expression(e),
        None => 0,
    }
}

#[cycle(statements)]
fn statement(s: &WordStmt) -> u8
    ensures { result ≡ in_byte (counts.word_statement_temporaries (word_stmt_of s.now)) }
{
    match s {
        WordStmt::Fill(_) => 0,
        WordStmt::Break => 0,
        WordStmt::Continue => 0,
        WordStmt::Expr(e) => expression(e),
        WordStmt::Return(value) => optional(value),
        WordStmt::Block { body, .. } => statements(body),
        WordStmt::If { test, yes, no } => {
            larger(expression(test), larger(statement(yes), statement(no)))
        }
        WordStmt::While { test, body } => larger(expression(test), statement(body)),
        WordStmt::Do { body, test } => larger(statement(body), expression(test)),
        WordStmt::For {
            first,
            test,
            third,
            body,
        } => {
            let behind = larger(optional(third), statement(body));
            larger(optional(first), larger(optional(test), behind))
        }
        WordStmt::Switch {
            value,
            choices: all,
        } => larger(expression(value), choices(all)),
    }
}

#[cycle(statements)]
fn statements(list: &[WordStmt]) -> u8
    ensures { result ≡ in_byte (counts.word_statements_temporaries (word_statement_list list.now)) }
{
    let mut most = 0;
    for s in list {
        most = larger(most, statement(s));
    }
    most
}

#[cycle(statements)]
fn choices(list: &[WordChoice]) -> u8
    ensures { result ≡ in_byte (counts.word_choices_temporaries (word_choice_list list.now)) }
{
    let mut most = 0;
    for part in list {
        most = larger(most, choice(part));
    }
    most
}

#[cycle(statements)]
fn choice(part: &WordChoice) -> u8
    ensures { result ≡ in_byte (counts.word_choices_temporaries (word_choice_before part.now no_more)) }
{
    match part {
        WordChoice::Case(_) | WordChoice::Default => 0,
        WordChoice::Body(s) => statement(s),
    }
}
