//! The code of statements, in a function of these local objects whose temporaries begin at the scalar `t`.
#![tactic(auto, using(acc_operations::proofs::ItemLemmas::item_lists))]

ghost use Rattle.std.specs.Prelude.{◌≡◌, ◌+◌, ◌++◌, true, false, OnOk, IfOk, [], map, length, slice_get};
ghost use Rattle.acc_code.specs.AccTree.{Case, Loop, Switch, Return, end, ◌▸◌, ◌⧺◌};
ghost use Rattle.acc_code.specs.AccView.{item_list};
ghost use Rattle.acc_operations.specs.Appended.{Appends};
ghost use Rattle.acc_select.specs.Conditions.{Nothing, Breaks, Runs};
ghost use Rattle.acc_select.specs.LocalObjects.{HaveFewCells};
ghost use Rattle.acc_select.specs.PartView as view;
ghost use Rattle.acc_select.specs.Selected as selected;
ghost use Rattle.acc_select.specs.Selected.{code_of, statement_items, statements_items, choices_items};
ghost use Rattle.acc_operations.specs.Words as word;
ghost use Rattle.c_tree.specs.View.{object_of};
ghost use Rattle.tree_code.specs.WordTree as tree;
ghost use Rattle.tree_code.specs.WordView.{word_expr_of, optional_word_of, word_stmt_of, word_statement_list, word_choice_list, word_choice_before};

use crate::cells::fill;
use crate::code::{Code, Result};
use crate::expressions::{condition, effect, find, loaded};
use crate::part::{Part, ShortPart};
use acc_code::{AccItem, CaseLabel};
use acc_operations::{load_unsigned, push};
use std::alloc::Global;
use tree_code::{Object, WordChoice, WordExpr, WordForm, WordStmt};
use word_base::NoMemory;

/// The code of a statement.
#[cycle(statements)]
pub(crate) fn statement(
    alloc: Global,
    s: &WordStmt,
    code: &mut Code,
    locals: &[Object],
    t: u8,
) -> Result<()>
    requires { HaveFewCells locals.now }
    ensures { OnOk result (Appends code.old.items code.new.items (statement_items (map object_of locals.now) t (word_stmt_of s.now))) }
{
    match s {
        WordStmt::Break => push(code, AccItem::Break),
        WordStmt::Continue => push(code, AccItem::Continue),
        WordStmt::Fill(number) => fill(code, locals, *number),
        WordStmt::Expr(e) => effect(code, e, t),
        WordStmt::Return(value) => give(code, value, t),
        WordStmt::Block { body, .. } => statements(alloc, body, code, locals, t),
        WordStmt::If { test, yes, no } => either(alloc, code, test, yes, no, locals, t),
        WordStmt::While { test, body } => while_loop(alloc, code, test, body, locals, t),
        WordStmt::Do { body, test } => do_loop(alloc, code, body, test, locals, t),
        WordStmt::For {
            first,
            test,
            third,
            body,
        } => {
            optional_effect(code, first, t)?;
            for_loop(alloc, code, test, third, body, locals, t)
        }
        WordStmt::Switch { value, choices } => switch(alloc, choices, code, value, locals, t),
    }
}

#[cycle(statements)]
fn statements(
    alloc: Global,
    list: &[WordStmt],
    code: &mut Code,
    locals: &[Object],
    t: u8,
) -> Result<()>
    requires { HaveFewCells locals.now }
    ensures { OnOk result (Appends code.old.items code.new.items (statements_items (map object_of locals.now) t (word_statement_list list.now))) }
{
    for s in list {
        statement(alloc, s, code, locals, t)?;
    }
    Ok(())
}

// The code of a statement in a list of its own.
#[cycle(statements)]
fn list_of(alloc: Global, s: &WordStmt, locals: &[Object], t: u8) -> Result<Code>
    requires { HaveFewCells locals.now }
    ensures { IfOk result (λ list. item_list list.items ≡ statement_items (map object_of locals.now) t (word_stmt_of s.now)) }
{
    let mut list = Vec::new(alloc);
    statement(alloc, s, &mut list, locals, t)?;
    Ok(list)
}

// A statement as a part of an `if`: a jump, or nothing, may stand twice.
#[cycle(statements)]
fn part(alloc: Global, s: &WordStmt, locals: &[Object], t: u8) -> Result<Part>
    requires { HaveFewCells locals.now }
    ensures { IfOk result (λ p. view.part_of p ≡ selected.part_of (word_stmt_of s.now) (statement_items (map object_of locals.now) t (word_stmt_of s.now))) }
{
    match s {
        WordStmt::Break => Ok(Part::Short(ShortPart::Break)),
        WordStmt::Continue => Ok(Part::Short(ShortPart::Continue)),
        WordStmt::Block { body, .. } => block_part(alloc, body, locals, t),
        _ => long_part(alloc, s, locals, t),
    }
}

#[cycle(statements)]
fn long_part(alloc: Global, s: &WordStmt, locals: &[Object], t: u8) -> Result<Part>
    requires { HaveFewCells locals.now }
    ensures { IfOk result (λ p. view.part_of p ≡ Runs (statement_items (map object_of locals.now) t (word_stmt_of s.now))) }
{
    Ok(Part::Runs(list_of(alloc, s, locals, t)?))
}

#[cycle(statements)]
fn block_part(alloc: Global, list: &[WordStmt], locals: &[Object], t: u8) -> Result<Part>
    requires { HaveFewCells locals.now }
    ensures { IfOk result (λ p. view.part_of p ≡ selected.part_of (tree.Block [] (word_statement_list list.now)) (statements_items (map object_of locals.now) t (word_statement_list list.now))) }
{
    let Some((first, rest)) = list.split_first() else {
        return Ok(Part::Short(ShortPart::Nothing));
    };
    if rest.is_empty() {
        part(alloc, first, locals, t)
    } else {
        list_part(alloc, list, locals, t)
    }
}

#[cycle(statements)]
fn list_part(alloc: Global, list: &[WordStmt], locals: &[Object], t: u8) -> Result<Part>
    requires { HaveFewCells locals.now }
    ensures { IfOk result (λ p. view.part_of p ≡ Runs (statements_items (map object_of locals.now) t (word_statement_list list.now))) }
{
    let mut items = Vec::new(alloc);
    statements(alloc, list, &mut items, locals, t)?;
    Ok(Part::Runs(items))
}

#[cycle(statements)]
fn either(
    alloc: Global,
    code: &mut Code,
    test: &WordExpr,
    yes: &WordStmt,
    no: &WordStmt,
    locals: &[Object],
    t: u8,
) -> Result<()>
    requires { HaveFewCells locals.now }
    ensures { OnOk result (Appends code.old.items code.new.items (statement_items (map object_of locals.now) t (tree.If (word_expr_of test.now) (word_stmt_of yes.now) (word_stmt_of no.now)))) }
{
    let yes = part(alloc, yes, locals, t)?;
    let no = part(alloc, no, locals, t)?;
    condition(code, test, t, true, yes, no)
}

// Leaves a loop where the expression is 0.
fn test_list(alloc: Global, e: &WordExpr, t: u8) -> Result<Code>
    ensures { IfOk result (λ list. item_list list.items ≡ selected.test_items (word_expr_of e.now) t) }
{
    let mut list = Vec::new(alloc);
    append_test(&mut list, e, t)?;
    Ok(list)
}

fn append_test(code: &mut Code, e: &WordExpr, t: u8) -> Result<()>
    ensures { OnOk result (Appends code.old.items code.new.items (selected.test_items (word_expr_of e.now) t)) }
{
    match &e.form {
        WordForm::Const(w) => constant_test(code, *w),
        _ => computed_test(code, e, t),
    }
}

fn constant_test(code: &mut Code, w: u16) -> Result<()>
    ensures { OnOk result (Appends code.old.items code.new.items (selected.test_items (tree.Node (tree.Const w) 0) 0)) }
{
    if w == 0 {
        push(code, AccItem::Break)
    } else {
        Ok(())
    }
}

fn computed_test(code: &mut Code, e: &WordExpr, t: u8) -> Result<()>
    ensures { OnOk result (Appends code.old.items code.new.items ((code_of (word_expr_of e.now) t).branch true Nothing Breaks)) }
{
    let yes = Part::Short(ShortPart::Nothing);
    condition(code, e, t, true, yes, Part::Short(ShortPart::Break))
}

fn optional_test(alloc: Global, e: &Option<WordExpr>, t: u8) -> Result<Code>
    ensures { IfOk result (λ list. item_list list.items ≡ selected.optional_test (optional_word_of e.now) t) }
{
    match e {
        Some(e) => test_list(alloc, e, t),
        None => Ok(Vec::new(alloc)),
    }
}

fn optional_effect(code: &mut Code, e: &Option<WordExpr>, t: u8) -> Result<()>
    ensures { OnOk result (Appends code.old.items code.new.items (selected.optional_effect (optional_word_of e.now) t)) }
{
    match e {
        Some(e) => effect(code, e, t),
        None => Ok(()),
    }
}

fn optional_effect_list(alloc: Global, e: &Option<WordExpr>, t: u8) -> Result<Code>
    ensures { IfOk result (λ list. item_list list.items ≡ selected.optional_effect (optional_word_of e.now) t) }
{
    let mut list = Vec::new(alloc);
    optional_effect(&mut list, e, t)?;
    Ok(list)
}

fn give(code: &mut Code, value: &Option<WordExpr>, t: u8) -> Result<()>
    ensures { OnOk result (Appends code.old.items code.new.items (statement_items [] t (tree.Return (optional_word_of value.now)))) }
{
    match value {
        Some(e) => give_word(code, e, t),
        None => push(code, AccItem::Return),
    }
}

fn give_word(code: &mut Code, e: &WordExpr, t: u8) -> Result<()>
    ensures { OnOk result (Appends code.old.items code.new.items (word.loaded (code_of (word_expr_of e.now) t).word ⧺ Return ▸ end)) }
{
    let _high = loaded(code, e, t)?;
    push(code, AccItem::Return)
}

fn push_loop(code: &mut Code, before: Code, body: Code, after: Code, test_last: bool) -> Result<()>
    ensures { OnOk result (Appends code.old.items code.new.items (Loop (item_list before.items) (item_list body.items) (item_list after.items) test_last ▸ end)) }
{
    push(
        code,
        AccItem::Loop {
            before,
            body,
            after,
            test_last,
        },
    )
}

#[cycle(statements)]
fn while_loop(
    alloc: Global,
    code: &mut Code,
    test: &WordExpr,
    body: &WordStmt,
    locals: &[Object],
    t: u8,
) -> Result<()>
    requires { HaveFewCells locals.now }
    ensures { OnOk result (Appends code.old.items code.new.items (statement_items (map object_of locals.now) t (tree.While (word_expr_of test.now) (word_stmt_of body.now)))) }
{
    let body = list_of(alloc, body, locals, t)?;
    let before = test_list(alloc, test, t)?;
    push_loop(code, before, body, Vec::new(alloc), false)
}

#[cycle(statements)]
fn do_loop(
    alloc: Global,
    code: &mut Code,
    body: &WordStmt,
    test: &WordExpr,
    locals: &[Object],
    t: u8,
) -> Result<()>
    requires { HaveFewCells locals.now }
    ensures { OnOk result (Appends code.old.items code.new.items (statement_items (map object_of locals.now) t (tree.Do_while (word_stmt_of body.now) (word_expr_of test.now)))) }
{
    let body = list_of(alloc, body, locals, t)?;
    let after = test_list(alloc, test, t)?;
    push_loop(code, Vec::new(alloc), body, after, true)
}

#[cycle(statements)]
fn for_loop(
    alloc: Global,
    code: &mut Code,
    test: &Option<WordExpr>,
    third: &Option<WordExpr>,
    body: &WordStmt,
    locals: &[Object],
    t: u8,
) -> Result<()>
    requires { HaveFewCells locals.now }
    ensures { OnOk result (Appends code.old.items code.new.items (Loop (selected.optional_test (optional_word_of test.now) t) (statement_items (map object_of locals.now) t (word_stmt_of body.now)) (selected.optional_effect (optional_word_of third.now) t) false ▸ end)) }
{
    let body = list_of(alloc, body, locals, t)?;
    let before = optional_test(alloc, test, t)?;
    let after = optional_effect_list(alloc, third, t)?;
    push_loop(code, before, body, after, false)
}

fn switched(code: &mut Code, value: &WordExpr, t: u8) -> Result<()>
    ensures { OnOk result (Appends code.old.items code.new.items ((code_of (word_expr_of value.now) t).word.items ⧺ word.load_unsigned (code_of (word_expr_of value.now) t).word.found)) }
{
    let found = find(code, value, t)?;
    load_unsigned(code, found)
}

fn push_switch(code: &mut Code, cases: Vec<CaseLabel>, body: Code) -> Result<()>
    ensures { OnOk result (Appends code.old.items code.new.items (Switch cases.items (item_list body.items) ▸ end)) }
{
    push(code, AccItem::Switch { cases, body })
}

#[cycle(statements)]
fn switch(
    alloc: Global,
    list: &[WordChoice],
    code: &mut Code,
    value: &WordExpr,
    locals: &[Object],
    t: u8,
) -> Result<()>
    requires { HaveFewCells locals.now }
    ensures { OnOk result (Appends code.old.items code.new.items (statement_items (map object_of locals.now) t (tree.Switch (word_expr_of value.now) (word_choice_list list.now)))) }
{
    switched(code, value, t)?;
    let body = choices(alloc, list, locals, t)?;
    let cases = labels(alloc, list)?;
    push_switch(code, cases, body)
}

fn append_label(all: &mut Vec<CaseLabel>, c: &WordChoice) -> Result<()>
    ensures { OnOk result (all.new.items ≡ all.old.items ++ selected.labels_of (word_choice_before c.now tree.no_more)) }
{
    match c {
        WordChoice::Case(w) => Ok(all.push(CaseLabel::Value(*w))?),
        WordChoice::Default => Ok(all.push(CaseLabel::Default)?),
        WordChoice::Body(_) => Ok(()),
    }
}

fn labels(alloc: Global, list: &[WordChoice]) -> Result<Vec<CaseLabel>>
    ensures { IfOk result (λ all. all.items ≡ selected.labels_of (word_choice_list list.now)) }
{
    let mut all = Vec::new(alloc);
    for c in list {
        append_label(&mut all, c)?;
    }
    Ok(all)
}

#[cycle(statements)]
fn choices(alloc: Global, list: &[WordChoice], locals: &[Object], t: u8) -> Result<Code>
    requires { HaveFewCells locals.now }
    ensures { IfOk result (λ body. item_list body.items ≡ choices_items (map object_of locals.now) t (word_choice_list list.now) 0) }
{
    let mut body = Vec::new(alloc);
    let mut label = 0;
    for c in list {
        label = choice(alloc, c, &mut body, locals, label, t)?;
    }
    Ok(body)
}

// A label, or a statement between labels. Says which number the next label has.
#[cycle(statements)]
fn choice(
    alloc: Global,
    c: &WordChoice,
    code: &mut Code,
    locals: &[Object],
    label: u16,
    t: u8,
) -> Result<u16>
    requires { HaveFewCells locals.now }
    ensures items { OnOk result (Appends code.old.items code.new.items (choices_items (map object_of locals.now) t (word_choice_before c.now tree.no_more) label)) }
    ensures label { IfOk result (λ n. n ≡ label + length (selected.labels_of (word_choice_before c.now tree.no_more))) }
{
    match c {
        WordChoice::Case(_) | WordChoice::Default => push_label(code, label),
        WordChoice::Body(s) => {
            statement(alloc, s, code, locals, t)?;
            Ok(label)
        }
    }
}

fn push_label(code: &mut Code, label: u16) -> Result<u16>
    ensures items { OnOk result (Appends code.old.items code.new.items (Case label ▸ end)) }
    ensures label { IfOk result (λ n. n ≡ label + 1) }
{
    push(code, AccItem::Case(label))?;
    label.checked_add(1).ok_or(NoMemory)
}
