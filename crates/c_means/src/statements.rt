//! What statements do: ISO 9899:1990 6.6.
ghost use Rattle.std.specs.Prelude.{◌≡◌, OnOk, map, Some, drop};
ghost use Rattle.c_tree.specs.Eval as eval;
ghost use Rattle.c_tree.specs.Exec as exec;
ghost use Rattle.c_tree.specs.SourceRun as calls;
ghost use Rattle.c_tree.specs.Store.{give};
ghost use Rattle.c_tree.specs.TypedTree as tree;
ghost use Rattle.c_tree.specs.View.{choice_list, expr_of, function_of, option_expr_of, statement_list, stmt_of};
ghost use Rattle.c_means.specs.Blocks.{flow_of, option_flow_of};
ghost use Rattle.c_means.specs.Frames.{calls_of, env_in};
ghost use Rattle.c_means.specs.Turns as turns;
ghost use Rattle.c_state.specs.Values.{option_of, value_of};
ghost use Rattle.c_state.specs.Worlds.{world_of, ComesTo};

use crate::blocks::{Flow, enter, fill, leave, pass, restore};
use crate::expressions::{eval, holds, used};
use crate::frame::Run;
use crate::labels::start_of;
use c_state::{Names, State, Stop, Value};
use c_tree::{Choice, TypedExpr, TypedStmt, VarRef};

/// A call: the parameters live as long as the body runs. 6.3.2.2.
#[cycle(run)]
pub(crate) fn body(state: &mut State, run: &Run, arguments: &[Value]) -> Result<Option<Value>, Stop>
    ensures { ComesTo option_of (calls.call_function (calls_of run.now) run.now.turns (Some (function_of run.now.function.now)) (map value_of arguments.now) (world_of state.old)) state.new result }
{
    let f = run.function;
    let mut names = Names::new(run.alloc);
    let opened = enter(state, run, &mut names, f.params.as_slice())?;
    pass(state, run, &names, f.params.as_slice(), arguments);
    let flow = statement(state, run, &mut names, &f.body)?;
    leave(state, &opened);
    Ok(flow.value())
}

#[cycle(run)]
fn statement(state: &mut State, run: &Run, names: &mut Names, s: &TypedStmt) -> Result<Flow, Stop>
    ensures comes { ComesTo flow_of (exec.exec (calls_of run.now) run.now.turns (stmt_of s.now) (env_in run.now names.old) (world_of state.old)) state.new result }
    ensures names { OnOk result (env_in run.now names.new ≡ env_in run.now names.old) }
{
    match s {
        TypedStmt::Block { declared, body } => block(state, run, names, declared, body),
        TypedStmt::Fill(number) => {
            fill(state, run, names, *number)?;
            Ok(Flow::Next)
        }
        TypedStmt::Expr(e) => {
            eval(state, run, names, e)?;
            Ok(Flow::Next)
        }
        TypedStmt::If { test, yes, no } => {
            if condition(state, run, names, test)? {
                statement(state, run, names, yes)
            } else {
                statement(state, run, names, no)
            }
        }
        TypedStmt::While { test, body } => while_loop(state, run, names, test, body),
        TypedStmt::Do { body, test } => do_loop(state, run, names, body, test),
        TypedStmt::For {
            first,
            test,
            third,
            body,
        } => for_loop(state, run, names, first, test, third, body),
        TypedStmt::Switch { value, choices } => switch(state, run, names, value, choices),
        TypedStmt::Break => Ok(Flow::Broke),
        TypedStmt::Continue => Ok(Flow::Continued),
        TypedStmt::Return(None) => Ok(Flow::Returned(None)),
        TypedStmt::Return(Some(e)) => Ok(Flow::Returned(Some(used(state, run, names, e)?))),
    }
}

// The test of a statement, at the place of its expression.
#[cycle(run)]
fn condition(state: &mut State, run: &Run, names: &Names, e: &TypedExpr) -> Result<bool, Stop>
    ensures { ComesTo (λ v. v) (eval.condition (calls_of run.now) (env_in run.now names.now) (expr_of e.now) (world_of state.old)) state.new result }
{
    holds(state, run, names, e, e.at)
}

// 6.6.2: the objects of a block live until it is left.
#[cycle(run)]
fn block(
    state: &mut State,
    run: &Run,
    names: &mut Names,
    declared: &[VarRef],
    body: &[TypedStmt],
) -> Result<Flow, Stop>
    ensures comes { ComesTo flow_of (exec.exec (calls_of run.now) run.now.turns (tree.Block declared.now (statement_list body.now)) (env_in run.now names.old) (world_of state.old)) state.new result }
    ensures names { OnOk result (env_in run.now names.new ≡ env_in run.now names.old) }
{
    let opened = enter(state, run, names, declared)?;
    let flow = statements(state, run, names, body)?;
    leave(state, &opened);
    restore(run, names, &opened)?;
    Ok(flow)
}

// Statements, one after another, until one is left by a jump.
#[cycle(run)]
fn statements(
    state: &mut State,
    run: &Run,
    names: &mut Names,
    list: &[TypedStmt],
) -> Result<Flow, Stop>
    ensures comes { ComesTo flow_of (exec.exec_all (calls_of run.now) run.now.turns (statement_list list.now) (env_in run.now names.old) (world_of state.old)) state.new result }
    ensures names { OnOk result (env_in run.now names.new ≡ env_in run.now names.old) }
{
    for s in list {
        let flow = statement(state, run, names, s)?;
        if flow != Flow::Next {
            return Ok(flow);
        }
    }
    Ok(Flow::Next)
}

// 6.6.5.1: the test before a turn too many still runs.
#[cycle(run)]
fn while_loop(
    state: &mut State,
    run: &Run,
    names: &mut Names,
    test: &TypedExpr,
    body: &TypedStmt,
) -> Result<Flow, Stop>
    ensures comes { ComesTo flow_of (exec.exec (calls_of run.now) run.now.turns (tree.While (expr_of test.now) (stmt_of body.now)) (env_in run.now names.old) (world_of state.old)) state.new result }
    ensures names { OnOk result (env_in run.now names.new ≡ env_in run.now names.old) }
{
    for _ in 0..run.turns {
        if let Some(flow) = while_turn(state, run, names, test, body)? {
            return Ok(flow);
        }
    }
    if condition(state, run, names, test)? {
        return Err(Stop::More);
    }
    Ok(Flow::Next)
}

#[cycle(run)]
fn while_turn(
    state: &mut State,
    run: &Run,
    names: &mut Names,
    test: &TypedExpr,
    body: &TypedStmt,
) -> Result<Option<Flow>, Stop>
    ensures comes { ComesTo option_flow_of (turns.turn (eval.condition (calls_of run.now) (env_in run.now names.old) (expr_of test.now)) (exec.exec (calls_of run.now) run.now.turns (stmt_of body.now) (env_in run.now names.old)) (give (tt {0})) (world_of state.old)) state.new result }
    ensures names { OnOk result (env_in run.now names.new ≡ env_in run.now names.old) }
{
    if !condition(state, run, names, test)? {
        return Ok(Some(Flow::Next));
    }
    let flow = statement(state, run, names, body)?;
    Ok(flow.of_loop())
}

// 6.6.5.2.
#[cycle(run)]
fn do_loop(
    state: &mut State,
    run: &Run,
    names: &mut Names,
    body: &TypedStmt,
    test: &TypedExpr,
) -> Result<Flow, Stop>
    ensures comes { ComesTo flow_of (exec.exec (calls_of run.now) run.now.turns (tree.Do_while (stmt_of body.now) (expr_of test.now)) (env_in run.now names.old) (world_of state.old)) state.new result }
    ensures names { OnOk result (env_in run.now names.new ≡ env_in run.now names.old) }
{
    for _ in 0..run.turns {
        if let Some(flow) = do_turn(state, run, names, body, test)? {
            return Ok(flow);
        }
    }
    Err(Stop::More)
}

#[cycle(run)]
fn do_turn(
    state: &mut State,
    run: &Run,
    names: &mut Names,
    body: &TypedStmt,
    test: &TypedExpr,
) -> Result<Option<Flow>, Stop>
    ensures comes { ComesTo option_flow_of (turns.turn_first (exec.exec (calls_of run.now) run.now.turns (stmt_of body.now) (env_in run.now names.old)) (eval.condition (calls_of run.now) (env_in run.now names.old) (expr_of test.now)) (world_of state.old)) state.new result }
    ensures names { OnOk result (env_in run.now names.new ≡ env_in run.now names.old) }
{
    let flow = statement(state, run, names, body)?;
    if let Some(left) = flow.of_loop() {
        return Ok(Some(left));
    }
    if condition(state, run, names, test)? {
        return Ok(None);
    }
    Ok(Some(Flow::Next))
}

// 6.6.5.3.
#[cycle(run)]
fn for_loop(
    state: &mut State,
    run: &Run,
    names: &mut Names,
    first: &Option<TypedExpr>,
    test: &Option<TypedExpr>,
    third: &Option<TypedExpr>,
    body: &TypedStmt,
) -> Result<Flow, Stop>
    ensures comes { ComesTo flow_of (exec.exec (calls_of run.now) run.now.turns (tree.For (option_expr_of first.now) (option_expr_of test.now) (option_expr_of third.now) (stmt_of body.now)) (env_in run.now names.old) (world_of state.old)) state.new result }
    ensures names { OnOk result (env_in run.now names.new ≡ env_in run.now names.old) }
{
    part(state, run, names, first)?;
    for_turns(state, run, names, test, third, body)
}

// The first or third part of a for, where there is one.
#[cycle(run)]
fn part(state: &mut State, run: &Run, names: &Names, e: &Option<TypedExpr>) -> Result<(), Stop>
    ensures { ComesTo (λ v. (tt {0})) (exec.third_of (calls_of run.now) (env_in run.now names.now) (option_expr_of e.now) (world_of state.old)) state.new result }
{
    if let Some(e) = e {
        eval(state, run, names, e)?;
    }
    Ok(())
}

// The test of a for, true where there is none.
#[cycle(run)]
fn goes_on(
    state: &mut State,
    run: &Run,
    names: &Names,
    test: &Option<TypedExpr>,
) -> Result<bool, Stop>
    ensures { ComesTo (λ v. v) (exec.test_or_true (calls_of run.now) (env_in run.now names.now) (option_expr_of test.now) (world_of state.old)) state.new result }
{
    match test {
        Some(test) => condition(state, run, names, test),
        None => Ok(true),
    }
}

#[cycle(run)]
fn for_turns(
    state: &mut State,
    run: &Run,
    names: &mut Names,
    test: &Option<TypedExpr>,
    third: &Option<TypedExpr>,
    body: &TypedStmt,
) -> Result<Flow, Stop>
    ensures comes { ComesTo flow_of (exec.turns run.now.turns (exec.test_or_true (calls_of run.now) (env_in run.now names.old) (option_expr_of test.now)) (exec.exec (calls_of run.now) run.now.turns (stmt_of body.now) (env_in run.now names.old)) (exec.third_of (calls_of run.now) (env_in run.now names.old) (option_expr_of third.now)) (world_of state.old)) state.new result }
    ensures names { OnOk result (env_in run.now names.new ≡ env_in run.now names.old) }
{
    for _ in 0..run.turns {
        if let Some(flow) = for_turn(state, run, names, test, third, body)? {
            return Ok(flow);
        }
    }
    if goes_on(state, run, names, test)? {
        return Err(Stop::More);
    }
    Ok(Flow::Next)
}

// The third part also runs behind a continue.
#[cycle(run)]
fn for_turn(
    state: &mut State,
    run: &Run,
    names: &mut Names,
    test: &Option<TypedExpr>,
    third: &Option<TypedExpr>,
    body: &TypedStmt,
) -> Result<Option<Flow>, Stop>
    ensures comes { ComesTo option_flow_of (turns.turn (exec.test_or_true (calls_of run.now) (env_in run.now names.old) (option_expr_of test.now)) (exec.exec (calls_of run.now) run.now.turns (stmt_of body.now) (env_in run.now names.old)) (exec.third_of (calls_of run.now) (env_in run.now names.old) (option_expr_of third.now)) (world_of state.old)) state.new result }
    ensures names { OnOk result (env_in run.now names.new ≡ env_in run.now names.old) }
{
    if !goes_on(state, run, names, test)? {
        return Ok(Some(Flow::Next));
    }
    let flow = statement(state, run, names, body)?;
    if let Some(left) = flow.of_loop() {
        return Ok(Some(left));
    }
    part(state, run, names, third)?;
    Ok(None)
}

// 6.6.4.2: a switch runs from the case of its value, else from its default.
#[cycle(run)]
fn switch(
    state: &mut State,
    run: &Run,
    names: &mut Names,
    value: &TypedExpr,
    list: &[Choice],
) -> Result<Flow, Stop>
    ensures comes { ComesTo flow_of (exec.exec (calls_of run.now) run.now.turns (tree.Switch (expr_of value.now) (choice_list list.now)) (env_in run.now names.old) (world_of state.old)) state.new result }
    ensures names { OnOk result (env_in run.now names.new ≡ env_in run.now names.old) }
{
    let value = used(state, run, names, value)?;
    let start = start_of(list, value.word());
    let flow = choices(state, run, names, list, start)?;
    Ok(flow.of_switch())
}

// All statements from a place on, past the labels.
#[cycle(run)]
fn choices(
    state: &mut State,
    run: &Run,
    names: &mut Names,
    list: &[Choice],
    start: usize,
) -> Result<Flow, Stop>
    ensures comes { ComesTo flow_of (exec.run_choices (calls_of run.now) run.now.turns (choice_list (drop start list.now)) (env_in run.now names.old) (world_of state.old)) state.new result }
    ensures names { OnOk result (env_in run.now names.new ≡ env_in run.now names.old) }
{
    for n in start..list.len() {
        if let Choice::Body(s) = &list[n] {
            let flow = statement(state, run, names, s)?;
            if flow != Flow::Next {
                return Ok(flow);
            }
        }
    }
    Ok(Flow::Next)
}
