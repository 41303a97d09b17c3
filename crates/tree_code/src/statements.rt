//! Statements of typed programs as statements on words.
ghost use Rattle.std.specs.Prelude.{◌≡◌, IfOk, []};
ghost use Rattle.c_tree.specs.View as typed;
ghost use Rattle.c_tree.specs.TypedTree as tree;
ghost use Rattle.tree_code.specs.Lowered.{lowered, lowered_optional, lowered_statement, lowered_statements, lowered_choices};
ghost use Rattle.c_tree.specs.TypedOfWords.{UsesWords, OptionalUsesWords, StatementUsesWords, StatementsUseWords, ChoicesUseWords};
ghost use Rattle.tree_code.specs.WordTree as word;
ghost use Rattle.tree_code.specs.WordView.{optional_word_of, word_stmt_of, word_statement_list, word_choice_list, word_choice_before};

use crate::expressions::{expression, optional};
use crate::word_expression::WordExpr;
use crate::word_statement::{WordChoice, WordStmt};
use c_tree::{Choice, TypedExpr, TypedStmt, VarRef};
use std::alloc::Global;
use word_base::NoMemory;

/// The word tree of a statement.
pub(crate) fn lowered_body(alloc: Global, s: &TypedStmt) -> Result<WordStmt, NoMemory>
    ensures tree { IfOk result (λ w. word_stmt_of w ≡ lowered_statement (typed.stmt_of s.now)) }
    ensures words { IfOk result (λ _. StatementUsesWords (typed.stmt_of s.now)) }
{
    statement(alloc, s)
}

#[cycle(statements)]
fn statement(alloc: Global, s: &TypedStmt) -> Result<WordStmt, NoMemory>
    ensures tree { IfOk result (λ w. word_stmt_of w ≡ lowered_statement (typed.stmt_of s.now)) }
    ensures words { IfOk result (λ _. StatementUsesWords (typed.stmt_of s.now)) }
{
    match s {
        TypedStmt::Break => Ok(WordStmt::Break),
        TypedStmt::Continue => Ok(WordStmt::Continue),
        TypedStmt::Fill(number) => Ok(WordStmt::Fill(*number)),
        TypedStmt::Expr(e) => effect(alloc, e),
        TypedStmt::Return(value) => returned(alloc, value),
        TypedStmt::Block { declared, body } => block(alloc, declared, body),
        TypedStmt::If { test, yes, no } => either(alloc, no, part(alloc, yes)?, test),
        TypedStmt::While { test, body } => while_loop(alloc, body, test),
        TypedStmt::Do { body, test } => do_loop(alloc, body, test),
        TypedStmt::For {
            first,
            test,
            third,
            body,
        } => for_loop(alloc, body, first, test, third),
        TypedStmt::Switch {
            value,
            choices: all,
        } => switch(alloc, all, value),
    }
}

fn effect(alloc: Global, e: &TypedExpr) -> Result<WordStmt, NoMemory>
    ensures tree { IfOk result (λ w. word_stmt_of w ≡ word.Do_expr (lowered (typed.expr_of e.now))) }
    ensures words { IfOk result (λ _. UsesWords (typed.expr_of e.now)) }
{
    Ok(WordStmt::Expr(expression(alloc, e)?))
}

fn returned(alloc: Global, e: &Option<TypedExpr>) -> Result<WordStmt, NoMemory>
    ensures tree { IfOk result (λ w. word_stmt_of w ≡ word.Return (lowered_optional (typed.option_expr_of e.now))) }
    ensures words { IfOk result (λ _. OptionalUsesWords (typed.option_expr_of e.now)) }
{
    Ok(WordStmt::Return(optional(alloc, e)?))
}

fn boxed(alloc: Global, s: WordStmt) -> Result<Box<WordStmt>, NoMemory>
    ensures { IfOk result (λ b. b.value ≡ s) }
{
    Ok(Box::new(alloc, s)?)
}

#[cycle(statements)]
fn part(alloc: Global, s: &TypedStmt) -> Result<Box<WordStmt>, NoMemory>
    ensures tree { IfOk result (λ w. word_stmt_of w.value ≡ lowered_statement (typed.stmt_of s.now)) }
    ensures words { IfOk result (λ _. StatementUsesWords (typed.stmt_of s.now)) }
{
    boxed(alloc, statement(alloc, s)?)
}

#[cycle(statements)]
fn block(alloc: Global, declared: &[VarRef], list: &[TypedStmt]) -> Result<WordStmt, NoMemory>
    ensures tree { IfOk result (λ w. word_stmt_of w ≡ word.Block declared.now (lowered_statements (typed.statement_list list.now))) }
    ensures words { IfOk result (λ _. StatementsUseWords (typed.statement_list list.now)) }
{
    let body = statements(alloc, list)?;
    let declared = declared.to_vec(alloc)?;
    Ok(WordStmt::Block { declared, body })
}

// An if whose first part is lowered.
#[cycle(statements)]
fn either(
    alloc: Global,
    no: &TypedStmt,
    yes: Box<WordStmt>,
    test: &TypedExpr,
) -> Result<WordStmt, NoMemory>
    ensures tree { IfOk result (λ w. word_stmt_of w ≡ word.If (lowered (typed.expr_of test.now)) (word_stmt_of yes.value) (lowered_statement (typed.stmt_of no.now))) }
    ensures words { IfOk result (λ _. UsesWords (typed.expr_of test.now) × StatementUsesWords (typed.stmt_of no.now)) }
{
    let no = part(alloc, no)?;
    two_armed(alloc, test, yes, no)
}

fn two_armed(
    alloc: Global,
    test: &TypedExpr,
    yes: Box<WordStmt>,
    no: Box<WordStmt>,
) -> Result<WordStmt, NoMemory>
    ensures tree { IfOk result (λ w. word_stmt_of w ≡ word.If (lowered (typed.expr_of test.now)) (word_stmt_of yes.value) (word_stmt_of no.value)) }
    ensures words { IfOk result (λ _. UsesWords (typed.expr_of test.now)) }
{
    let test = expression(alloc, test)?;
    Ok(WordStmt::If { test, yes, no })
}

#[cycle(statements)]
fn while_loop(alloc: Global, body: &TypedStmt, test: &TypedExpr) -> Result<WordStmt, NoMemory>
    ensures tree { IfOk result (λ w. word_stmt_of w ≡ word.While (lowered (typed.expr_of test.now)) (lowered_statement (typed.stmt_of body.now))) }
    ensures words { IfOk result (λ _. UsesWords (typed.expr_of test.now) × StatementUsesWords (typed.stmt_of body.now)) }
{
    let body = part(alloc, body)?;
    let test = expression(alloc, test)?;
    Ok(WordStmt::While { test, body })
}

#[cycle(statements)]
fn do_loop(alloc: Global, body: &TypedStmt, test: &TypedExpr) -> Result<WordStmt, NoMemory>
    ensures tree { IfOk result (λ w. word_stmt_of w ≡ word.Do_while (lowered_statement (typed.stmt_of body.now)) (lowered (typed.expr_of test.now))) }
    ensures words { IfOk result (λ _. StatementUsesWords (typed.stmt_of body.now) × UsesWords (typed.expr_of test.now)) }
{
    let body = part(alloc, body)?;
    let test = expression(alloc, test)?;
    Ok(WordStmt::Do { body, test })
}

#[cycle(statements)]
fn for_loop(
    alloc: Global,
    body: &TypedStmt,
    first: &Option<TypedExpr>,
    test: &Option<TypedExpr>,
    third: &Option<TypedExpr>,
) -> Result<WordStmt, NoMemory>
    ensures tree { IfOk result (λ w. word_stmt_of w ≡ word.For (lowered_optional (typed.option_expr_of first.now)) (lowered_optional (typed.option_expr_of test.now)) (lowered_optional (typed.option_expr_of third.now)) (lowered_statement (typed.stmt_of body.now))) }
    ensures words { IfOk result (λ _. OptionalUsesWords (typed.option_expr_of first.now) × OptionalUsesWords (typed.option_expr_of test.now) × OptionalUsesWords (typed.option_expr_of third.now) × StatementUsesWords (typed.stmt_of body.now)) }
{
    let body = part(alloc, body)?;
    for_over(alloc, first, test, third, body)
}

// A for over a body.
fn for_over(
    alloc: Global,
    first: &Option<TypedExpr>,
    test: &Option<TypedExpr>,
    third: &Option<TypedExpr>,
    body: Box<WordStmt>,
) -> Result<WordStmt, NoMemory>
    ensures tree { IfOk result (λ w. word_stmt_of w ≡ word.For (lowered_optional (typed.option_expr_of first.now)) (lowered_optional (typed.option_expr_of test.now)) (lowered_optional (typed.option_expr_of third.now)) (word_stmt_of body.value)) }
    ensures words { IfOk result (λ _. OptionalUsesWords (typed.option_expr_of first.now) × OptionalUsesWords (typed.option_expr_of test.now) × OptionalUsesWords (typed.option_expr_of third.now)) }
{
    let first = optional(alloc, first)?;
    for_from(alloc, first, test, third, body)
}

// A for whose first expression is lowered too.
fn for_from(
    alloc: Global,
    first: Option<WordExpr>,
    test: &Option<TypedExpr>,
    third: &Option<TypedExpr>,
    body: Box<WordStmt>,
) -> Result<WordStmt, NoMemory>
    ensures tree { IfOk result (λ w. word_stmt_of w ≡ word.For (optional_word_of first) (lowered_optional (typed.option_expr_of test.now)) (lowered_optional (typed.option_expr_of third.now)) (word_stmt_of body.value)) }
    ensures words { IfOk result (λ _. OptionalUsesWords (typed.option_expr_of test.now) × OptionalUsesWords (typed.option_expr_of third.now)) }
{
    let test = optional(alloc, test)?;
    let third = optional(alloc, third)?;
    Ok(WordStmt::For {
        first,
        test,
        third,
        body,
    })
}

#[cycle(statements)]
fn switch(alloc: Global, all: &[Choice], value: &TypedExpr) -> Result<WordStmt, NoMemory>
    ensures tree { IfOk result (λ w. word_stmt_of w ≡ word.Switch (lowered (typed.expr_of value.now)) (lowered_choices (typed.choice_list all.now))) }
    ensures words { IfOk result (λ _. UsesWords (typed.expr_of value.now) × ChoicesUseWords (typed.choice_list all.now)) }
{
    let choices = choices(alloc, all)?;
    let value = expression(alloc, value)?;
    Ok(WordStmt::Switch { value, choices })
}

#[cycle(statements)]
fn statements(alloc: Global, list: &[TypedStmt]) -> Result<Vec<WordStmt>, NoMemory>
    ensures tree { IfOk result (λ all. word_statement_list all.items ≡ lowered_statements (typed.statement_list list.now)) }
    ensures words { IfOk result (λ _. StatementsUseWords (typed.statement_list list.now)) }
{
    let mut all = Vec::new(alloc);
    for s in list {
        all.push(statement(alloc, s)?)?;
    }
    Ok(all)
}

#[cycle(statements)]
fn choices(alloc: Global, list: &[Choice]) -> Result<Vec<WordChoice>, NoMemory>
    ensures tree { IfOk result (λ all. word_choice_list all.items ≡ lowered_choices (typed.choice_list list.now)) }
    ensures words { IfOk result (λ _. ChoicesUseWords (typed.choice_list list.now)) }
{
    let mut all = Vec::new(alloc);
    for part in list {
        all.push(choice(alloc, part)?)?;
    }
    Ok(all)
}

#[cycle(statements)]
fn choice(alloc: Global, part: &Choice) -> Result<WordChoice, NoMemory>
    ensures tree { IfOk result (λ w. word_choice_before w word.no_more ≡ lowered_choices (typed.choice_before part.now tree.no_more)) }
    ensures words { IfOk result (λ _. ChoicesUseWords (typed.choice_before part.now tree.no_more)) }
{
    match part {
        Choice::Case(word) => Ok(WordChoice::Case(*word)),
        Choice::Default => Ok(WordChoice::Default),
        Choice::Body(s) => Ok(WordChoice::Body(statement(alloc, s)?)),
    }
}
