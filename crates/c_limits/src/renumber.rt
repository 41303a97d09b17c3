//! The objects of a function by their numbers among their own kind. While a body is typed they are all numbered together, since
//! which of them are frame scalars is known only behind it.
ghost use Rattle.std.specs.Prelude.{◌≡◌, map};
ghost use Rattle.c_tree.specs.TypedTree.{no_more};
ghost use Rattle.c_tree.specs.View.{expr_of, form_of, lvalue_of, argument_list, option_expr_of, stmt_of, statement_list, choice_list, choice_before};
ghost use Rattle.c_rules.specs.Renumbering as by;

use c_rules::number_in;
use c_tree::{Choice, ExprForm, Target, TargetForm, TypedExpr, TypedStmt, VarRef};

fn numbered(frame: &[VarRef], number: u32) -> VarRef
    ensures { result ≡ by.numbered frame.now number }
{
    match frame.get(number as usize) {
        Some(reference) => *reference,
        None => VarRef::Local(number),
    }
}

fn renumbered(frame: &[VarRef], reference: VarRef) -> VarRef
    ensures { result ≡ by.renumbered frame.now reference }
{
    match reference {
        VarRef::Local(number) => numbered(frame, number),
        VarRef::Scalar(_) | VarRef::Static(_) => reference,
    }
}

fn reference(frame: &[VarRef], named: &mut VarRef)
    ensures { named.new ≡ by.renumbered frame.now named.old }
{
    *named = renumbered(frame, *named);
}

#[cycle(expressions)]
fn expression(frame: &[VarRef], e: &mut TypedExpr)
    ensures { expr_of e.new ≡ by.expression frame.now (expr_of e.old) }
{
    operation(frame, &mut e.form);
}

#[cycle(expressions)]
fn operation(frame: &[VarRef], form: &mut ExprForm)
    ensures { form_of form.new ≡ by.of_form frame.now (form_of form.old) }
{
    match form {
        ExprForm::Const(_) | ExprForm::In { .. } => {}
        ExprForm::Read(named) => reference(frame, named),
        ExprForm::AddressOf(named) => reference(frame, named),
        ExprForm::Load(value) => expression(frame, value),
        ExprForm::Not(value) => expression(frame, value),
        ExprForm::Convert(value) => expression(frame, value),
        ExprForm::Unary { value, .. } => expression(frame, value),
        ExprForm::Out { value, .. } => expression(frame, value),
        ExprForm::Binary { left, right, .. } => {
            expression(frame, left);
            expression(frame, right);
        }
        ExprForm::And { left, right } => {
            expression(frame, left);
            expression(frame, right);
        }
        ExprForm::Or { left, right } => {
            expression(frame, left);
            expression(frame, right);
        }
        ExprForm::Comma { left, right } => {
            expression(frame, left);
            expression(frame, right);
        }
        ExprForm::Pick { test, yes, no } => {
            expression(frame, test);
            expression(frame, yes);
            expression(frame, no);
        }
        ExprForm::Assign { to, value } => {
            target(frame, to);
            expression(frame, value);
        }
        ExprForm::AssignOp { to, value, .. } => {
            target(frame, to);
            expression(frame, value);
        }
        ExprForm::StepBefore { to, .. } => target(frame, to),
        ExprForm::StepAfter { to, .. } => target(frame, to),
        ExprForm::Call {
            function: _function,
            args,
        } => arguments(frame, args),
    }
}

#[cycle(expressions)]
fn target(frame: &[VarRef], to: &mut Target)
    ensures { lvalue_of to.new.form to.new.at ≡ by.target frame.now (lvalue_of to.old.form to.old.at) }
{
    match &mut to.form {
        TargetForm::Named(named) => reference(frame, named),
        TargetForm::At(pointer) => expression(frame, pointer),
    }
}

#[cycle(expressions)]
fn arguments(frame: &[VarRef], list: &mut Vec<TypedExpr>)
    ensures { argument_list list.new.items ≡ by.arguments frame.now (argument_list list.old.items) }
{
    for e in list.iter_mut() {
        expression(frame, e);
    }
}

fn optional(frame: &[VarRef], e: &mut Option<TypedExpr>)
    ensures { option_expr_of e.new ≡ by.optional frame.now (option_expr_of e.old) }
{
    if let Some(e) = e {
        expression(frame, e);
    }
}

fn references(frame: &[VarRef], list: &mut Vec<VarRef>)
    ensures { list.new.items ≡ map (by.renumbered frame.now) list.old.items }
{
    for named in list.iter_mut() {
        reference(frame, named);
    }
}

/// Gives each object that a statement names its number among its own kind, by what each object of the function stands for.
pub(crate) fn renumber(frame: &[VarRef], s: &mut TypedStmt)
    ensures { stmt_of s.new ≡ by.statement frame.now (stmt_of s.old) }
{
    statement(frame, s);
}

#[cycle(statements)]
fn statement(frame: &[VarRef], s: &mut TypedStmt)
    ensures { stmt_of s.new ≡ by.statement frame.now (stmt_of s.old) }
{
    match s {
        TypedStmt::Break => {}
        TypedStmt::Continue => {}
        TypedStmt::Fill(number) => *number = number_in(numbered(frame, *number)),
        TypedStmt::Expr(e) => expression(frame, e),
        TypedStmt::Return(value) => optional(frame, value),
        TypedStmt::Block { declared, body } => {
            references(frame, declared);
            statements(frame, body);
        }
        TypedStmt::If { test, yes, no } => {
            expression(frame, test);
            statement(frame, yes);
            statement(frame, no);
        }
        TypedStmt::While { test, body } => {
            expression(frame, test);
            statement(frame, body);
        }
        TypedStmt::Do { body, test } => {
            statement(frame, body);
            expression(frame, test);
        }
        TypedStmt::For {
            first,
            test,
            third,
            body,
        } => {
            optional(frame, first);
            optional(frame, test);
            optional(frame, third);
            statement(frame, body);
        }
        TypedStmt::Switch {
            value,
            choices: all,
        } => {
            expression(frame, value);
            choices(frame, all);
        }
    }
}

#[cycle(statements)]
fn statements(frame: &[VarRef], list: &mut Vec<TypedStmt>)
    ensures { statement_list list.new.items ≡ by.statements frame.now (statement_list list.old.items) }
{
    for s in list.iter_mut() {
        statement(frame, s);
    }
}

#[cycle(statements)]
fn choices(frame: &[VarRef], list: &mut Vec<Choice>)
    ensures { choice_list list.new.items ≡ by.choices frame.now (choice_list list.old.items) }
{
    for part in list.iter_mut() {
        choice(frame, part);
    }
}

#[cycle(statements)]
fn choice(frame: &[VarRef], part: &mut Choice)
    ensures { choice_before part.new no_more ≡ by.choices frame.now (choice_before part.old no_more) }
{
    match part {
        Choice::Case(_) => {}
        Choice::Default => {}
        Choice::Body(s) => statement(frame, s),
    }
}
