//! Expressions of typed programs as expressions on words.
ghost use Rattle.std.specs.Prelude.{◌≡◌, IfOk};
ghost use Rattle.c_tree.specs.View as typed;
ghost use Rattle.tree_code.specs.Lowered as lowering;
ghost use Rattle.tree_code.specs.Lowered.{lowered, lowered_form, lowered_target, lowered_list, lowered_optional};
ghost use Rattle.c_tree.specs.TypedOfWords.{UsesWords, FormUsesWords, TargetUsesWords, AllUseWords, OptionalUsesWords};
ghost use Rattle.tree_code.specs.WordTree as word;
ghost use Rattle.tree_code.specs.WordView.{word_expr_of, word_form_of, word_lvalue_of, word_argument_list, optional_word_of};

use crate::operator::{WordOp, word_op};
use crate::word_expression::{WordExpr, WordForm, WordTarget, WordTargetForm};
use c_tree::{ExprForm, ScalarType, Target, TargetForm, TypedExpr, UnaryOp};
use std::alloc::Global;
use word_base::NoMemory;

fn boxed(alloc: Global, e: WordExpr) -> Result<Box<WordExpr>, NoMemory>
    ensures { IfOk result (λ b. b.value ≡ e) }
{
    Ok(Box::new(alloc, e)?)
}

fn is_conversion(form: &ExprForm) -> bool
    ensures { result ≡ lowering.is_conversion (typed.form_of form.now) }
{
    match form {
        ExprForm::Convert(_) => true,
        _ => false,
    }
}

fn is_number(form: &WordForm) -> bool
    ensures { result ≡ lowering.is_number (word_form_of form.now) }
{
    match form {
        WordForm::Const(_) => true,
        _ => false,
    }
}

fn is_minus(op: UnaryOp) -> bool
    ensures { result ≡ lowering.is_minus op }
{
    match op {
        UnaryOp::Minus => true,
        UnaryOp::Plus | UnaryOp::Complement => false,
    }
}

fn operator(alloc: Global, op: UnaryOp, value: WordExpr, at: u32) -> Result<WordExpr, NoMemory>
    ensures { IfOk result (λ w. word_expr_of w ≡ word.Node (word.Unary op (word_expr_of value)) at) }
{
    let value = boxed(alloc, value)?;
    Ok(WordExpr {
        form: WordForm::Unary { op, value },
        at,
    })
}

// An operator on a value, which was converted or not.
fn operator_on(
    alloc: Global,
    op: UnaryOp,
    converted: bool,
    value: WordExpr,
    at: u32,
) -> Result<WordExpr, NoMemory>
    ensures { IfOk result (λ w. word_expr_of w ≡ lowering.lowered_unary op converted (word_expr_of value) at) }
{
    if is_minus(op) && (converted && is_number(&value.form)) {
        let place = value.at;
        let value = operator(alloc, UnaryOp::Plus, value, place)?;
        operator(alloc, op, value, at)
    } else {
        operator(alloc, op, value, at)
    }
}

/// The word tree of an expression.
#[cycle(expressions)]
pub(crate) fn expression(alloc: Global, e: &TypedExpr) -> Result<WordExpr, NoMemory>
    ensures tree { IfOk result (λ w. word_expr_of w ≡ lowered (typed.expr_of e.now)) }
    ensures words { IfOk result (λ _. UsesWords (typed.expr_of e.now)) }
{
    operation(alloc, &e.form, e.kind, e.at)
}

#[cycle(expressions)]
fn operation(
    alloc: Global,
    form: &ExprForm,
    kind: Option<ScalarType>,
    at: u32,
) -> Result<WordExpr, NoMemory>
    ensures tree { IfOk result (λ w. word_expr_of w ≡ lowered_form (typed.form_of form.now) kind at) }
    ensures words { IfOk result (λ _. FormUsesWords (typed.form_of form.now)) }
{
    match form {
        ExprForm::Const(word) => leaf(WordForm::Const(*word), at),
        ExprForm::Read(named) => leaf(WordForm::Read(*named), at),
        ExprForm::AddressOf(named) => leaf(WordForm::AddressOf(*named), at),
        ExprForm::In { port } => leaf(
            WordForm::In {
                port: port.number(),
            },
            at,
        ),
        ExprForm::Load(value) => load(alloc, value, at),
        ExprForm::Not(value) => not(alloc, value, at),
        ExprForm::Convert(value) => expression(alloc, value),
        ExprForm::Unary { op, value } => unary(alloc, *op, value, at),
        ExprForm::Out { port, value } => out(alloc, port.number(), value, at),
        ExprForm::Binary { op, left, right } => {
            let op = word_op(*op, left.kind, right.kind);
            binary(alloc, right, op, part(alloc, left)?, at)
        }
        ExprForm::And { left, right } => and(alloc, right, part(alloc, left)?, at),
        ExprForm::Or { left, right } => or(alloc, right, part(alloc, left)?, at),
        ExprForm::Comma { left, right } => comma(alloc, right, part(alloc, left)?, at),
        ExprForm::Pick { test, yes, no } => {
            let test = part(alloc, test)?;
            pick(alloc, no, test, part(alloc, yes)?, at)
        }
        ExprForm::Assign { to, value } => assign(alloc, value, target(alloc, to)?, at),
        ExprForm::AssignOp { op, to, value } => {
            let op = word_op(*op, kind, value.kind);
            assign_op(alloc, value, op, target(alloc, to)?, at)
        }
        ExprForm::StepBefore { up, to } => step_before(alloc, *up, to, at),
        ExprForm::StepAfter { up, to } => step_after(alloc, *up, to, at),
        ExprForm::Call { function, args } => call(alloc, *function, args, at),
    }
}

fn leaf(form: WordForm, at: u32) -> Result<WordExpr, NoMemory>
    ensures { IfOk result (λ w. word_expr_of w ≡ word.Node (word_form_of form) at) }
{
    Ok(WordExpr { form, at })
}

#[cycle(expressions)]
fn part(alloc: Global, e: &TypedExpr) -> Result<Box<WordExpr>, NoMemory>
    ensures tree { IfOk result (λ w. word_expr_of w.value ≡ lowered (typed.expr_of e.now)) }
    ensures words { IfOk result (λ _. UsesWords (typed.expr_of e.now)) }
{
    boxed(alloc, expression(alloc, e)?)
}

#[cycle(expressions)]
fn load(alloc: Global, value: &TypedExpr, at: u32) -> Result<WordExpr, NoMemory>
    ensures tree { IfOk result (λ w. word_expr_of w ≡ word.Node (word.Load (lowered (typed.expr_of value.now))) at) }
    ensures words { IfOk result (λ _. UsesWords (typed.expr_of value.now)) }
{
    let value = part(alloc, value)?;
    Ok(WordExpr {
        form: WordForm::Load(value),
        at,
    })
}

#[cycle(expressions)]
fn not(alloc: Global, value: &TypedExpr, at: u32) -> Result<WordExpr, NoMemory>
    ensures tree { IfOk result (λ w. word_expr_of w ≡ word.Node (word.Not (lowered (typed.expr_of value.now))) at) }
    ensures words { IfOk result (λ _. UsesWords (typed.expr_of value.now)) }
{
    let value = part(alloc, value)?;
    Ok(WordExpr {
        form: WordForm::Not(value),
        at,
    })
}

#[cycle(expressions)]
fn out(alloc: Global, port: u8, value: &TypedExpr, at: u32) -> Result<WordExpr, NoMemory>
    ensures tree { IfOk result (λ w. word_expr_of w ≡ word.Node (word.Out port (lowered (typed.expr_of value.now))) at) }
    ensures words { IfOk result (λ _. UsesWords (typed.expr_of value.now)) }
{
    let value = part(alloc, value)?;
    Ok(WordExpr {
        form: WordForm::Out { port, value },
        at,
    })
}

#[cycle(expressions)]
fn unary(alloc: Global, op: UnaryOp, value: &TypedExpr, at: u32) -> Result<WordExpr, NoMemory>
    ensures tree { IfOk result (λ w. word_expr_of w ≡ lowering.lowered_unary op (lowering.is_converted (typed.expr_of value.now)) (lowered (typed.expr_of value.now)) at) }
    ensures words { IfOk result (λ _. UsesWords (typed.expr_of value.now)) }
{
    let converted = is_conversion(&value.form);
    operator_on(alloc, op, converted, expression(alloc, value)?, at)
}

// A form whose last part is still to be lowered.
#[cycle(expressions)]
fn binary(
    alloc: Global,
    right: &TypedExpr,
    op: WordOp,
    left: Box<WordExpr>,
    at: u32,
) -> Result<WordExpr, NoMemory>
    ensures tree { IfOk result (λ w. word_expr_of w ≡ word.Node (word.Binary op (word_expr_of left.value) (lowered (typed.expr_of right.now))) at) }
    ensures words { IfOk result (λ _. UsesWords (typed.expr_of right.now)) }
{
    let right = part(alloc, right)?;
    Ok(WordExpr {
        form: WordForm::Binary { op, left, right },
        at,
    })
}

#[cycle(expressions)]
fn and(alloc: Global, right: &TypedExpr, left: Box<WordExpr>, at: u32) -> Result<WordExpr, NoMemory>
    ensures tree { IfOk result (λ w. word_expr_of w ≡ word.Node (word.And (word_expr_of left.value) (lowered (typed.expr_of right.now))) at) }
    ensures words { IfOk result (λ _. UsesWords (typed.expr_of right.now)) }
{
    let right = part(alloc, right)?;
    Ok(WordExpr {
        form: WordForm::And { left, right },
        at,
    })
}

#[cycle(expressions)]
fn or(alloc: Global, right: &TypedExpr, left: Box<WordExpr>, at: u32) -> Result<WordExpr, NoMemory>
    ensures tree { IfOk result (λ w. word_expr_of w ≡ word.Node (word.Or (word_expr_of left.value) (lowered (typed.expr_of right.now))) at) }
    ensures words { IfOk result (λ _. UsesWords (typed.expr_of right.now)) }
{
    let right = part(alloc, right)?;
    Ok(WordExpr {
        form: WordForm::Or { left, right },
        at,
    })
}

#[cycle(expressions)]
fn comma(
    alloc: Global,
    right: &TypedExpr,
    left: Box<WordExpr>,
    at: u32,
) -> Result<WordExpr, NoMemory>
    ensures tree { IfOk result (λ w. word_expr_of w ≡ word.Node (word.Comma (word_expr_of left.value) (lowered (typed.expr_of right.now))) at) }
    ensures words { IfOk result (λ _. UsesWords (typed.expr_of right.now)) }
{
    let right = part(alloc, right)?;
    Ok(WordExpr {
        form: WordForm::Comma { left, right },
        at,
    })
}

#[cycle(expressions)]
fn pick(
    alloc: Global,
    no: &TypedExpr,
    test: Box<WordExpr>,
    yes: Box<WordExpr>,
    at: u32,
) -> Result<WordExpr, NoMemory>
    ensures tree { IfOk result (λ w. word_expr_of w ≡ word.Node (word.Pick (word_expr_of test.value) (word_expr_of yes.value) (lowered (typed.expr_of no.now))) at) }
    ensures words { IfOk result (λ _. UsesWords (typed.expr_of no.now)) }
{
    let no = part(alloc, no)?;
    Ok(WordExpr {
        form: WordForm::Pick { test, yes, no },
        at,
    })
}

#[cycle(expressions)]
fn assign(alloc: Global, value: &TypedExpr, to: WordTarget, at: u32) -> Result<WordExpr, NoMemory>
    ensures tree { IfOk result (λ w. word_expr_of w ≡ word.Node (word.Assign (word_lvalue_of to.form to.at) (lowered (typed.expr_of value.now))) at) }
    ensures words { IfOk result (λ _. UsesWords (typed.expr_of value.now)) }
{
    let value = part(alloc, value)?;
    Ok(WordExpr {
        form: WordForm::Assign { to, value },
        at,
    })
}

#[cycle(expressions)]
fn assign_op(
    alloc: Global,
    value: &TypedExpr,
    op: WordOp,
    to: WordTarget,
    at: u32,
) -> Result<WordExpr, NoMemory>
    ensures tree { IfOk result (λ w. word_expr_of w ≡ word.Node (word.AssignOp op (word_lvalue_of to.form to.at) (lowered (typed.expr_of value.now))) at) }
    ensures words { IfOk result (λ _. UsesWords (typed.expr_of value.now)) }
{
    let value = part(alloc, value)?;
    Ok(WordExpr {
        form: WordForm::AssignOp { op, to, value },
        at,
    })
}

#[cycle(expressions)]
fn step_before(alloc: Global, up: bool, to: &Target, at: u32) -> Result<WordExpr, NoMemory>
    ensures tree { IfOk result (λ w. word_expr_of w ≡ word.Node (word.StepBefore up (lowered_target (typed.lvalue_of to.now.form to.now.at))) at) }
    ensures words { IfOk result (λ _. TargetUsesWords (typed.lvalue_of to.now.form to.now.at)) }
{
    let to = target(alloc, to)?;
    Ok(WordExpr {
        form: WordForm::StepBefore { up, to },
        at,
    })
}

#[cycle(expressions)]
fn step_after(alloc: Global, up: bool, to: &Target, at: u32) -> Result<WordExpr, NoMemory>
    ensures tree { IfOk result (λ w. word_expr_of w ≡ word.Node (word.StepAfter up (lowered_target (typed.lvalue_of to.now.form to.now.at))) at) }
    ensures words { IfOk result (λ _. TargetUsesWords (typed.lvalue_of to.now.form to.now.at)) }
{
    let to = target(alloc, to)?;
    Ok(WordExpr {
        form: WordForm::StepAfter { up, to },
        at,
    })
}

#[cycle(expressions)]
fn call(alloc: Global, function: u16, list: &[TypedExpr], at: u32) -> Result<WordExpr, NoMemory>
    ensures tree { IfOk result (λ w. word_expr_of w ≡ word.Node (word.Call function (lowered_list (typed.argument_list list.now))) at) }
    ensures words { IfOk result (λ _. AllUseWords (typed.argument_list list.now)) }
{
    let args = arguments(alloc, list)?;
    Ok(WordExpr {
        form: WordForm::Call { function, args },
        at,
    })
}

#[cycle(expressions)]
fn target(alloc: Global, to: &Target) -> Result<WordTarget, NoMemory>
    ensures tree { IfOk result (λ w. word_lvalue_of w.form w.at ≡ lowered_target (typed.lvalue_of to.now.form to.now.at)) }
    ensures words { IfOk result (λ _. TargetUsesWords (typed.lvalue_of to.now.form to.now.at)) }
{
    let at = to.at;
    match &to.form {
        TargetForm::Named(named) => Ok(WordTarget {
            form: WordTargetForm::Named(*named),
            at,
        }),
        TargetForm::At(pointer) => address(alloc, pointer, at),
    }
}

#[cycle(expressions)]
fn address(alloc: Global, pointer: &TypedExpr, at: u32) -> Result<WordTarget, NoMemory>
    ensures tree { IfOk result (λ w. word_lvalue_of w.form w.at ≡ word.At (lowered (typed.expr_of pointer.now)) at) }
    ensures words { IfOk result (λ _. UsesWords (typed.expr_of pointer.now)) }
{
    let pointer = part(alloc, pointer)?;
    Ok(WordTarget {
        form: WordTargetForm::At(pointer),
        at,
    })
}

#[cycle(expressions)]
fn arguments(alloc: Global, list: &[TypedExpr]) -> Result<Vec<WordExpr>, NoMemory>
    ensures tree { IfOk result (λ all. word_argument_list all.items ≡ lowered_list (typed.argument_list list.now)) }
    ensures words { IfOk result (λ _. AllUseWords (typed.argument_list list.now)) }
{
    let mut all = Vec::new(alloc);
    for e in list {
        all.push(expression(alloc, e)?)?;
    }
    Ok(all)
}

/// The word tree of an expression that may be absent.
pub(crate) fn optional(alloc: Global, e: &Option<TypedExpr>) -> Result<Option<WordExpr>, NoMemory>
    ensures tree { IfOk result (λ w. optional_word_of w ≡ lowered_optional (typed.option_expr_of e.now)) }
    ensures words { IfOk result (λ _. OptionalUsesWords (typed.option_expr_of e.now)) }
{
    match e {
        Some(e) => Ok(Some(expression(alloc, e)?)),
        None => Ok(None),
    }
}
