//! How many temporaries the code of a statement needs.
//!
//! The code of an operator keeps its left operand in one while it evaluates the right one, unless that one is simple.
//! Counts stay at the most that 32 bits hold, which no function of a source within its limits reaches.
ghost use Rattle.std.specs.Prelude.{◌≡◌, ◌≤◌, ◌+◌, ℕ, max};
ghost use Rattle.c_tree.specs.TypedTree.{no_more, Kind, Node, Unary, Binary, Assign, AssignOp};
ghost use Rattle.c_syntax.specs.declared.operator.UnaryOp.TheVariants.{Minus};
ghost use Rattle.c_syntax.specs.declared.operator.BinaryOp.{BinaryOp};
ghost use Rattle.c_tree.specs.View.{expr_of, lvalue_of, argument_list, option_expr_of, stmt_of, statement_list, choice_list, choice_before};
ghost use Rattle.c_limits.specs.OperandForms.{constant_form, simple_form};
ghost use Rattle.c_limits.specs.Capped.{capped};
ghost use Rattle.c_rules.specs.Counted.{most_counted};
ghost use Rattle.c_tree.specs.Temporaries as counts;

use c_syntax::UnaryOp;
use c_tree::{Choice, ExprForm, Target, TargetForm, TypedExpr, TypedStmt};

/// The number of temporaries of a statement.
pub(crate) fn temporaries_of(s: &TypedStmt) -> u32
    requires { counts.statement_temporaries (stmt_of s.now) ≤ most_counted }
    ensures { result ≡ counts.statement_temporaries (stmt_of s.now) }
{
    statement(s)
}

/// What an operand is, beneath conversions.
#[derive(Clone, Copy)]
pub(crate) enum OperandForm {
    /// A constant, a minus on one, or an address.
    Constant,
    /// The read of a name.
    Name,
    /// What has to be computed.
    Computed,
}

fn operand_form(e: &TypedExpr) -> OperandForm
    ensures constant { constant_form result ≡ counts.is_constant (expr_of e.now) }
    ensures simple { simple_form result ≡ counts.is_simple (expr_of e.now) }
{
    match &e.form {
        ExprForm::Const(_) => OperandForm::Constant,
        ExprForm::AddressOf(_) => OperandForm::Constant,
        ExprForm::Read(_) => OperandForm::Name,
        ExprForm::Convert(value) => operand_form(value),
        ExprForm::Unary { op, value } => signed_form(*op, value),
        _ => OperandForm::Computed,
    }
}

// What an operator on this is.
fn signed_form(op: UnaryOp, e: &TypedExpr) -> OperandForm
    ensures constant { (kind : Kind) (at : ℕ) → constant_form result ≡ counts.is_constant (Node (Unary op (expr_of e.now)) kind at) }
    ensures simple { (kind : Kind) (at : ℕ) → simple_form result ≡ counts.is_simple (Node (Unary op (expr_of e.now)) kind at) }
{
    match op {
        UnaryOp::Minus => negative_form(e),
        UnaryOp::Plus | UnaryOp::Complement => OperandForm::Computed,
    }
}

// What a minus on this is.
fn negative_form(e: &TypedExpr) -> OperandForm
    ensures constant { (kind : Kind) (at : ℕ) → constant_form result ≡ counts.is_constant (Node (Unary Minus (expr_of e.now)) kind at) }
    ensures simple { (kind : Kind) (at : ℕ) → simple_form result ≡ counts.is_simple (Node (Unary Minus (expr_of e.now)) kind at) }
{
    match &e.form {
        ExprForm::Const(_) => OperandForm::Constant,
        _ => OperandForm::Computed,
    }
}

// So many with those that are kept while an operand is evaluated, unless it is simple.
fn behind(kept: u32, e: &TypedExpr, count: u32) -> u32
    ensures { (n : ℕ) → count ≡ capped n → result ≡ capped (counts.unless_simple (expr_of e.now) (kept + n)) }
{
    match operand_form(e) {
        OperandForm::Constant | OperandForm::Name => 0,
        OperandForm::Computed => kept.saturating_add(count),
    }
}

fn larger(a: u32, b: u32) -> u32
    ensures { (m n : ℕ) → a ≡ capped m → b ≡ capped n → result ≡ capped (max m n) }
{
    a.max(b)
}

// An operator on two operands that want so many.
fn binary(left: &TypedExpr, first: u32, right: &TypedExpr, second: u32) -> u32
    requires first { first ≡ capped (counts.temporaries (expr_of left.now)) }
    requires second { second ≡ capped (counts.temporaries (expr_of right.now)) }
    ensures { (op : BinaryOp) → result ≡ capped (counts.form_temporaries (Binary op (expr_of left.now) (expr_of right.now))) }
{
    let second = match operand_form(left) {
        OperandForm::Constant => second,
        OperandForm::Name | OperandForm::Computed => behind(1, right, second),
    };
    first.max(second)
}

fn assignment(to: &Target, first: u32, value: &TypedExpr, second: u32) -> u32
    requires first { first ≡ capped (counts.target_temporaries (lvalue_of to.now.form to.now.at)) }
    requires second { second ≡ capped (counts.temporaries (expr_of value.now)) }
    ensures { result ≡ capped (counts.form_temporaries (Assign (lvalue_of to.now.form to.now.at) (expr_of value.now))) }
{
    match &to.form {
        TargetForm::Named(_) => second,
        TargetForm::At(_) => first.max(behind(1, value, second)),
    }
}

// An assignment by an operator, which keeps what was there as well.
fn update(to: &Target, first: u32, value: &TypedExpr, second: u32) -> u32
    requires first { first ≡ capped (counts.target_temporaries (lvalue_of to.now.form to.now.at)) }
    requires second { second ≡ capped (counts.temporaries (expr_of value.now)) }
    ensures { (op : BinaryOp) → result ≡ capped (counts.form_temporaries (AssignOp op (lvalue_of to.now.form to.now.at) (expr_of value.now))) }
{
    match &to.form {
        TargetForm::Named(_) => behind(1, value, second),
        TargetForm::At(_) => first.max(behind(2, value, second)),
    }
}

#[cycle(expressions)]
fn expression(e: &TypedExpr) -> u32
    ensures { result ≡ capped (counts.temporaries (expr_of e.now)) }
{
    match &e.form {
        ExprForm::Const(_) => 0,
        ExprForm::Read(_) => 0,
        ExprForm::AddressOf(_) => 0,
        ExprForm::In { .. } => 0,
        ExprForm::Load(value) => expression(value),
        ExprForm::Not(value) => expression(value),
        ExprForm::Convert(value) => expression(value),
        ExprForm::Unary { value, .. } => expression(value),
        ExprForm::Out { value, .. } => expression(value),
        ExprForm::And { left, right } => larger(expression(left), expression(right)),
        ExprForm::Or { left, right } => larger(expression(left), expression(right)),
        ExprForm::Comma { left, right } => larger(expression(left), expression(right)),
        ExprForm::Binary { left, right, .. } => {
            binary(left, expression(left), right, expression(right))
        }
        ExprForm::Pick { test, yes, no } => {
            larger(expression(test), larger(expression(yes), expression(no)))
        }
        ExprForm::Assign { to, value } => assignment(to, target(to), value, expression(value)),
        ExprForm::AssignOp { to, value, .. } => update(to, target(to), value, expression(value)),
        ExprForm::StepBefore { to, .. } => target(to),
        ExprForm::StepAfter { to, .. } => target(to),
        ExprForm::Call { args, .. } => arguments(args),
    }
}

#[cycle(expressions)]
fn target(to: &Target) -> u32
    ensures { result ≡ capped (counts.target_temporaries (lvalue_of to.now.form to.now.at)) }
{
    match &to.form {
        TargetForm::Named(_) => 0,
        TargetForm::At(pointer) => expression(pointer),
    }
}

// Each argument is kept until the call, other than the last.
#[cycle(expressions)]
fn arguments(list: &[TypedExpr]) -> u32
    ensures { result ≡ capped (counts.argument_temporaries (argument_list list.now)) }
{
    let mut kept: u32 = 0;
    let mut most: u32 = 0;
    for e in list {
        most = most.max(kept.saturating_add(expression(e)));
        kept = kept.saturating_add(1);
    }
    most
}

fn optional(e: &Option<TypedExpr>) -> u32
    ensures { result ≡ capped (counts.optional_temporaries (option_expr_of e.now)) }
{
    match e {
        Some(e) => expression(e),
        None => 0,
    }
}

#[cycle(statements)]
fn statement(s: &TypedStmt) -> u32
    ensures { result ≡ capped (counts.statement_temporaries (stmt_of s.now)) }
{
    match s {
        TypedStmt::Fill(_) => 0,
        TypedStmt::Break => 0,
        TypedStmt::Continue => 0,
        TypedStmt::Expr(e) => expression(e),
        TypedStmt::Return(value) => optional(value),
        TypedStmt::Block { body, .. } => statements(body),
        TypedStmt::If { test, yes, no } => {
            larger(expression(test), larger(statement(yes), statement(no)))
        }
        TypedStmt::While { test, body } => larger(expression(test), statement(body)),
        TypedStmt::Do { body, test } => larger(statement(body), expression(test)),
        TypedStmt::For {
            first,
            test,
            third,
            body,
        } => {
            let behind = larger(optional(third), statement(body));
            larger(optional(first), larger(optional(test), behind))
        }
        TypedStmt::Switch {
            value,
            choices: all,
        } => larger(expression(value), choices(all)),
    }
}

#[cycle(statements)]
fn statements(list: &[TypedStmt]) -> u32
    ensures { result ≡ capped (counts.statements_temporaries (statement_list list.now)) }
{
    let mut most: u32 = 0;
    for s in list {
        most = most.max(statement(s));
    }
    most
}

#[cycle(statements)]
fn choices(list: &[Choice]) -> u32
    ensures { result ≡ capped (counts.choices_temporaries (choice_list list.now)) }
{
    let mut most: u32 = 0;
    for part in list {
        most = most.max(choice(part));
    }
    most
}

#[cycle(statements)]
fn choice(part: &Choice) -> u32
    ensures { result ≡ capped (counts.choices_temporaries (choice_before part.now no_more)) }
{
    match part {
        Choice::Case(_) | Choice::Default => 0,
        Choice::Body(s) => statement(s),
    }
}
