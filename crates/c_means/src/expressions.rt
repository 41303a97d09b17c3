//! What expressions give, from left to right: ISO 9899:1990 6.3.
ghost use Rattle.std.specs.Prelude.{◌≡◌, None, map, if◌then◌else◌};
ghost use Rattle.c_tree.specs.Eval as eval;
ghost use Rattle.c_tree.specs.Store as runs;
ghost use Rattle.c_tree.specs.TypedTree as tree;
ghost use Rattle.c_tree.specs.View.{argument_list, expr_of, lvalue_of};
ghost use Rattle.c_means.specs.Frames.{calls_of, env_in};
ghost use Rattle.c_means.specs.Expressions.{needed, tested};
ghost use Rattle.c_state.specs.Values.{option_of, value_of};
ghost use Rattle.c_state.specs.Worlds.{world_of, ComesTo};

use crate::frame::Run;
use crate::statements::body;
use c_state::{Names, Operand, Spot, State, Stop, Value, undefined};
use c_syntax::{BinaryOp, UnaryOp};
use c_tree::{ExprForm, Port, ScalarType, Target, TargetForm, TypedExpr, VarRef, points, truth};
use word_base::UndefinedKind;

// A constant, which is null where its type is a pointer's.
fn constant(kind: Option<ScalarType>, word: u16) -> Value
    ensures { value_of result ≡ (if eval.points kind then runs.Null else runs.Word word) }
{
    if points(kind) {
        Value::Null
    } else {
        Value::Word(word)
    }
}

// The first cell of the object of a name.
fn named(run: &Run, names: &Names, reference: VarRef) -> Spot
    ensures object { result.object.number ≡ eval.object_number (env_in run.now names.now) reference }
    ensures index { result.index ≡ 0 }
{
    Spot {
        object: names.find(reference),
        index: 0,
    }
}

/// A used value: a missing one is missed at its call.
#[cycle(run)]
pub(crate) fn used(
    state: &mut State,
    run: &Run,
    names: &Names,
    e: &TypedExpr,
) -> Result<Value, Stop>
    ensures { ComesTo value_of (eval.value (calls_of run.now) (env_in run.now names.now) (expr_of e.now) (world_of state.old)) state.new result }
{
    match &e.form {
        ExprForm::Pick { test, yes, no } => { picked_value(state, run, names, test, yes, no, e.at) }
        ExprForm::Comma { left, right } => value_behind(state, run, names, left, right),
        _ => needed(state, run, names, e),
    }
}

// 6.3.15, where the value is used.
#[cycle(run)]
fn picked_value(
    state: &mut State,
    run: &Run,
    names: &Names,
    test: &TypedExpr,
    yes: &TypedExpr,
    no: &TypedExpr,
    at: u32,
) -> Result<Value, Stop>
    ensures { ComesTo value_of (eval.value (calls_of run.now) (env_in run.now names.now) (tree.Node (tree.Pick (expr_of test.now) (expr_of yes.now) (expr_of no.now)) None at) (world_of state.old)) state.new result }
{
    if holds(state, run, names, test, at)? {
        used(state, run, names, yes)
    } else {
        used(state, run, names, no)
    }
}

// 6.3.17, where the value is used.
#[cycle(run)]
fn value_behind(
    state: &mut State,
    run: &Run,
    names: &Names,
    left: &TypedExpr,
    right: &TypedExpr,
) -> Result<Value, Stop>
    ensures { ComesTo value_of (eval.value (calls_of run.now) (env_in run.now names.now) (tree.Node (tree.Comma (expr_of left.now) (expr_of right.now)) None 0) (world_of state.old)) state.new result }
{
    eval(state, run, names, left)?;
    used(state, run, names, right)
}

// The value of an expression that passes on no operand's.
#[cycle(run)]
fn needed(state: &mut State, run: &Run, names: &Names, e: &TypedExpr) -> Result<Value, Stop>
    ensures { ComesTo value_of (needed (calls_of run.now) (env_in run.now names.now) (expr_of e.now) (world_of state.old)) state.new result }
{
    match eval(state, run, names, e)? {
        Some(value) => Ok(value),
        None => Err(undefined(UndefinedKind::NoValue, e.at)),
    }
}

// Whether the value of an operand is true, tested at a place.
#[cycle(run)]
pub(crate) fn holds(
    state: &mut State,
    run: &Run,
    names: &Names,
    e: &TypedExpr,
    at: u32,
) -> Result<bool, Stop>
    ensures { ComesTo (λ v. v) (tested (calls_of run.now) (env_in run.now names.now) (expr_of e.now) at (world_of state.old)) state.new result }
{
    let value = used(state, run, names, e)?;
    state.test(value, at)
}

/// An expression whose value may go unused.
#[cycle(run)]
pub(crate) fn eval(
    state: &mut State,
    run: &Run,
    names: &Names,
    e: &TypedExpr,
) -> Result<Option<Value>, Stop>
    ensures { ComesTo option_of (eval.eval (calls_of run.now) (env_in run.now names.now) (expr_of e.now) (world_of state.old)) state.new result }
{
    let at = e.at;
    let kind = e.kind;
    match &e.form {
        ExprForm::Const(word) => Ok(Some(constant(kind, *word))),
        ExprForm::Read(reference) => Ok(Some(state.load(named(run, names, *reference), kind, at)?)),
        ExprForm::AddressOf(reference) => Ok(Some(Value::Pointer(named(run, names, *reference)))),
        ExprForm::Load(pointer) => loaded(state, run, names, pointer, kind, at),
        ExprForm::Unary { op, value } => unary(state, run, names, *op, value, kind, at),
        ExprForm::Binary { op, left, right } => binary(state, run, names, *op, left, right, at),
        ExprForm::And { left, right } => both(state, run, names, left, right, at),
        ExprForm::Or { left, right } => either(state, run, names, left, right, at),
        ExprForm::Not(value) => negation(state, run, names, value, at),
        ExprForm::Pick { test, yes, no } => picked(state, run, names, test, yes, no, at),
        ExprForm::Assign { to, value } => assign(state, run, names, to, value, kind),
        ExprForm::AssignOp { op, to, value } => assign_by(
            state, run, names, *op, to, value, kind, at,
        ),
        ExprForm::StepBefore { up, to } => step_before(state, run, names, *up, to, kind, at),
        ExprForm::StepAfter { up, to } => step_after(state, run, names, *up, to, kind, at),
        ExprForm::Call { function, args } => call(state, run, names, *function, args),
        ExprForm::In { port } => Ok(Some(state.take(*port)?)),
        ExprForm::Out { port, value } => output(state, run, names, *port, value, at),
        ExprForm::Comma { left, right } => behind(state, run, names, left, right),
        ExprForm::Convert(value) => converted(state, run, names, value, kind),
    }
}

// What a pointer points to: 6.3.2.1 and 6.3.3.2.
#[cycle(run)]
fn loaded(
    state: &mut State,
    run: &Run,
    names: &Names,
    pointer: &TypedExpr,
    kind: Option<ScalarType>,
    at: u32,
) -> Result<Option<Value>, Stop>
    ensures { ComesTo option_of (eval.eval_form (calls_of run.now) (env_in run.now names.now) (tree.Load (expr_of pointer.now)) kind at (world_of state.old)) state.new result }
{
    let pointer = used(state, run, names, pointer)?;
    let spot = state.spot_of(pointer, at)?;
    Ok(Some(state.load(spot, kind, at)?))
}

// 6.3.3.3.
#[cycle(run)]
fn unary(
    state: &mut State,
    run: &Run,
    names: &Names,
    op: UnaryOp,
    value: &TypedExpr,
    kind: Option<ScalarType>,
    at: u32,
) -> Result<Option<Value>, Stop>
    ensures { ComesTo option_of (eval.eval_form (calls_of run.now) (env_in run.now names.now) (tree.Unary op (expr_of value.now)) kind at (world_of state.old)) state.new result }
{
    let value = used(state, run, names, value)?;
    Ok(Some(state.of_one(op, kind, value, at)?))
}

// 6.3.5 to 6.3.12.
#[cycle(run)]
fn binary(
    state: &mut State,
    run: &Run,
    names: &Names,
    op: BinaryOp,
    left: &TypedExpr,
    right: &TypedExpr,
    at: u32,
) -> Result<Option<Value>, Stop>
    ensures { ComesTo option_of (eval.eval_form (calls_of run.now) (env_in run.now names.now) (tree.Binary op (expr_of left.now) (expr_of right.now)) None at (world_of state.old)) state.new result }
{
    let a = Operand {
        kind: left.kind,
        value: used(state, run, names, left)?,
    };
    let b = Operand {
        kind: right.kind,
        value: used(state, run, names, right)?,
    };
    Ok(Some(state.of_two(op, a, b, at)?))
}

// 6.3.13: the right side is evaluated only where the left one is true.
#[cycle(run)]
fn both(
    state: &mut State,
    run: &Run,
    names: &Names,
    left: &TypedExpr,
    right: &TypedExpr,
    at: u32,
) -> Result<Option<Value>, Stop>
    ensures { ComesTo option_of (eval.eval_form (calls_of run.now) (env_in run.now names.now) (tree.And (expr_of left.now) (expr_of right.now)) None at (world_of state.old)) state.new result }
{
    if !holds(state, run, names, left, at)? {
        return Ok(Some(Value::Word(0)));
    }
    let right = holds(state, run, names, right, at)?;
    Ok(Some(Value::Word(truth(right))))
}

// 6.3.14: the right side is evaluated only where the left one is false.
#[cycle(run)]
fn either(
    state: &mut State,
    run: &Run,
    names: &Names,
    left: &TypedExpr,
    right: &TypedExpr,
    at: u32,
) -> Result<Option<Value>, Stop>
    ensures { ComesTo option_of (eval.eval_form (calls_of run.now) (env_in run.now names.now) (tree.Or (expr_of left.now) (expr_of right.now)) None at (world_of state.old)) state.new result }
{
    if holds(state, run, names, left, at)? {
        return Ok(Some(Value::Word(1)));
    }
    let right = holds(state, run, names, right, at)?;
    Ok(Some(Value::Word(truth(right))))
}

// 6.3.3.3.
#[cycle(run)]
fn negation(
    state: &mut State,
    run: &Run,
    names: &Names,
    value: &TypedExpr,
    at: u32,
) -> Result<Option<Value>, Stop>
    ensures { ComesTo option_of (eval.eval_form (calls_of run.now) (env_in run.now names.now) (tree.Not (expr_of value.now)) None at (world_of state.old)) state.new result }
{
    let holds = holds(state, run, names, value, at)?;
    Ok(Some(Value::Word(truth(!holds))))
}

// 6.3.15.
#[cycle(run)]
fn picked(
    state: &mut State,
    run: &Run,
    names: &Names,
    test: &TypedExpr,
    yes: &TypedExpr,
    no: &TypedExpr,
    at: u32,
) -> Result<Option<Value>, Stop>
    ensures { ComesTo option_of (eval.eval_form (calls_of run.now) (env_in run.now names.now) (tree.Pick (expr_of test.now) (expr_of yes.now) (expr_of no.now)) None at (world_of state.old)) state.new result }
{
    if holds(state, run, names, test, at)? {
        eval(state, run, names, yes)
    } else {
        eval(state, run, names, no)
    }
}

// 6.3.16.1.
#[cycle(run)]
fn assign(
    state: &mut State,
    run: &Run,
    names: &Names,
    to: &Target,
    value: &TypedExpr,
    kind: Option<ScalarType>,
) -> Result<Option<Value>, Stop>
    ensures { ComesTo option_of (eval.eval_form (calls_of run.now) (env_in run.now names.now) (tree.Assign (lvalue_of to.now.form to.now.at) (expr_of value.now)) kind 0 (world_of state.old)) state.new result }
{
    match &to.form {
        TargetForm::Named(reference) => assign_named(
            state, run, names, *reference, to.at, value, kind,
        ),
        TargetForm::At(pointer) => assign_through(state, run, names, pointer, to.at, value, kind),
    }
}

// To a name.
#[cycle(run)]
fn assign_named(
    state: &mut State,
    run: &Run,
    names: &Names,
    reference: VarRef,
    place: u32,
    value: &TypedExpr,
    kind: Option<ScalarType>,
) -> Result<Option<Value>, Stop>
    ensures { ComesTo option_of (eval.eval_form (calls_of run.now) (env_in run.now names.now) (tree.Assign (tree.Named reference place) (expr_of value.now)) kind 0 (world_of state.old)) state.new result }
{
    let value = used(state, run, names, value)?;
    let spot = named(run, names, reference);
    Ok(Some(state.save(spot, kind, value, place)?))
}

// Through a pointer, which comes before the value, and the store behind both.
#[cycle(run)]
fn assign_through(
    state: &mut State,
    run: &Run,
    names: &Names,
    pointer: &TypedExpr,
    place: u32,
    value: &TypedExpr,
    kind: Option<ScalarType>,
) -> Result<Option<Value>, Stop>
    ensures { ComesTo option_of (eval.eval_form (calls_of run.now) (env_in run.now names.now) (tree.Assign (tree.At (expr_of pointer.now) place) (expr_of value.now)) kind 0 (world_of state.old)) state.new result }
{
    let pointer = used(state, run, names, pointer)?;
    let value = used(state, run, names, value)?;
    let spot = state.spot_of(pointer, place)?;
    Ok(Some(state.save(spot, kind, value, place)?))
}

// 6.3.16.2: the old value is read before the operand.
#[cycle(run)]
fn assign_by(
    state: &mut State,
    run: &Run,
    names: &Names,
    op: BinaryOp,
    to: &Target,
    value: &TypedExpr,
    kind: Option<ScalarType>,
    at: u32,
) -> Result<Option<Value>, Stop>
    ensures { ComesTo option_of (eval.eval_form (calls_of run.now) (env_in run.now names.now) (tree.AssignOp op (lvalue_of to.now.form to.now.at) (expr_of value.now)) kind at (world_of state.old)) state.new result }
{
    let spot = spot(state, run, names, to)?;
    let old = Operand {
        kind,
        value: state.load(spot, kind, to.at)?,
    };
    let by = Operand {
        kind: value.kind,
        value: used(state, run, names, value)?,
    };
    let new = state.of_two(op, old, by, at)?;
    Ok(Some(state.save(spot, kind, new, to.at)?))
}

// 6.3.3.1.
#[cycle(run)]
fn step_before(
    state: &mut State,
    run: &Run,
    names: &Names,
    up: bool,
    to: &Target,
    kind: Option<ScalarType>,
    at: u32,
) -> Result<Option<Value>, Stop>
    ensures { ComesTo option_of (eval.eval_form (calls_of run.now) (env_in run.now names.now) (tree.StepBefore up (lvalue_of to.now.form to.now.at)) kind at (world_of state.old)) state.new result }
{
    let spot = spot(state, run, names, to)?;
    let old = state.load(spot, kind, to.at)?;
    let new = state.stepped(up, kind, old, at)?;
    Ok(Some(state.save(spot, kind, new, to.at)?))
}

// 6.3.2.4.
#[cycle(run)]
fn step_after(
    state: &mut State,
    run: &Run,
    names: &Names,
    up: bool,
    to: &Target,
    kind: Option<ScalarType>,
    at: u32,
) -> Result<Option<Value>, Stop>
    ensures { ComesTo option_of (eval.eval_form (calls_of run.now) (env_in run.now names.now) (tree.StepAfter up (lvalue_of to.now.form to.now.at)) kind at (world_of state.old)) state.new result }
{
    let spot = spot(state, run, names, to)?;
    let old = state.load(spot, kind, to.at)?;
    let new = state.stepped(up, kind, old, at)?;
    state.save(spot, kind, new, to.at)?;
    Ok(Some(old))
}

// 6.3.2.2.
#[cycle(run)]
fn call(
    state: &mut State,
    run: &Run,
    names: &Names,
    function: u16,
    args: &[TypedExpr],
) -> Result<Option<Value>, Stop>
    ensures { ComesTo option_of (eval.eval_form (calls_of run.now) (env_in run.now names.now) (tree.Call function (argument_list args.now)) None 0 (world_of state.old)) state.new result }
{
    let arguments = arguments(state, run, names, args)?;
    called(state, run, function, &arguments)
}

// A word goes out; void has no value.
#[cycle(run)]
fn output(
    state: &mut State,
    run: &Run,
    names: &Names,
    port: Port,
    value: &TypedExpr,
    at: u32,
) -> Result<Option<Value>, Stop>
    ensures { ComesTo option_of (eval.eval_form (calls_of run.now) (env_in run.now names.now) (tree.Out port (expr_of value.now)) None at (world_of state.old)) state.new result }
{
    let value = used(state, run, names, value)?;
    state.emit(port, value, at)?;
    Ok(None)
}

// 6.3.17.
#[cycle(run)]
fn behind(
    state: &mut State,
    run: &Run,
    names: &Names,
    left: &TypedExpr,
    right: &TypedExpr,
) -> Result<Option<Value>, Stop>
    ensures { ComesTo option_of (eval.eval_form (calls_of run.now) (env_in run.now names.now) (tree.Comma (expr_of left.now) (expr_of right.now)) None 0 (world_of state.old)) state.new result }
{
    eval(state, run, names, left)?;
    eval(state, run, names, right)
}

// 6.3.4: a conversion to void doesn't use its operand, any other does and keeps the value.
#[cycle(run)]
fn converted(
    state: &mut State,
    run: &Run,
    names: &Names,
    value: &TypedExpr,
    kind: Option<ScalarType>,
) -> Result<Option<Value>, Stop>
    ensures { ComesTo option_of (eval.eval_form (calls_of run.now) (env_in run.now names.now) (tree.Convert (expr_of value.now)) kind 0 (world_of state.old)) state.new result }
{
    if kind.is_none() {
        eval(state, run, names, value)?;
        return Ok(None);
    }
    Ok(Some(used(state, run, names, value)?))
}

// Where an lvalue lies.
#[cycle(run)]
fn spot(state: &mut State, run: &Run, names: &Names, to: &Target) -> Result<Spot, Stop>
    ensures { ComesTo (λ v. (v.object.number, v.index)) (eval.spot (calls_of run.now) (env_in run.now names.now) (lvalue_of to.now.form to.now.at) (world_of state.old)) state.new result }
{
    match &to.form {
        TargetForm::Named(reference) => Ok(named(run, names, *reference)),
        TargetForm::At(pointer) => spot_through(state, run, names, pointer, to.at),
    }
}

#[cycle(run)]
fn spot_through(
    state: &mut State,
    run: &Run,
    names: &Names,
    pointer: &TypedExpr,
    place: u32,
) -> Result<Spot, Stop>
    ensures { ComesTo (λ v. (v.object.number, v.index)) (eval.spot (calls_of run.now) (env_in run.now names.now) (tree.At (expr_of pointer.now) place) (world_of state.old)) state.new result }
{
    let pointer = used(state, run, names, pointer)?;
    state.spot_of(pointer, place)
}

// The arguments of a call, from left to right.
#[cycle(run)]
fn arguments(
    state: &mut State,
    run: &Run,
    names: &Names,
    list: &[TypedExpr],
) -> Result<Vec<Value>, Stop>
    ensures { ComesTo (λ v. (map value_of v.items)) (eval.values (calls_of run.now) (env_in run.now names.now) (argument_list list.now) (world_of state.old)) state.new result }
{
    let mut values = Vec::new(run.alloc);
    for e in list {
        let value = used(state, run, names, e)?;
        values.push(value)?;
    }
    Ok(values)
}

// A call of a function by its number.
#[cycle(run)]
fn called(
    state: &mut State,
    run: &Run,
    function: u16,
    arguments: &[Value],
) -> Result<Option<Value>, Stop>
    ensures { ComesTo option_of (calls_of run.now function (map value_of arguments.now) (world_of state.old)) state.new result }
{
    let Some(depth) = run.depth.checked_sub(1) else {
        return Err(Stop::More);
    };
    match run.program.functions.as_slice().get(usize::from(function)) {
        Some(function) => body(
            state,
            &Run {
                alloc: run.alloc,
                program: run.program,
                function,
                turns: run.turns,
                depth,
            },
            arguments,
        ),
        None => Err(Stop::More),
    }
}
