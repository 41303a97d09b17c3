//! Lvalues, and what is read and written through them: ISO 9899:1990 6.3.2.1, 6.3.2.4, 6.3.3.1, 6.3.3.2 and 6.3.16.
ghost use Rattle.c_rules.specs.Answers.{Follows};
ghost use Rattle.std.specs.Prelude.{◌≡◌, Some, None, IfOk, IfErr};
ghost use Rattle.c_tree.specs.View.{expr_of, lvalue_of};
ghost use Rattle.c_tree.specs.TypedTree.{Node, AddressOf};
ghost use Rattle.c_tree.specs.WellFormed as well_formed;
ghost use Rattle.c_rules.specs.Kinds as kinds;
ghost use Rattle.c_rules.specs.Operands as rules;
ghost use Rattle.c_conversions.specs.OperandView.{operand_of};
ghost use Rattle.c_rules.specs.declared.fault.Refusal.TheVariants as refusals;
ghost use Rattle.c_rules.specs.declared.fault.Rule.TheVariants as rule;

use crate::operands::sum;
use crate::pairs::boxed;
use c_conversions::{Operand, class_of, given, in_box, pointed, pointer_to};
use c_rules::{Class, Refusal, Rule, mismatch};
use c_syntax::BinaryOp;
use c_tree::{ExprForm, ScalarType, Target, TargetForm, TypedExpr, VarRef};
use std::alloc::Global;

/// No object stands where one is written, at the node that writes.
pub fn not_lvalue(at: u32) -> Refusal
    ensures { result ≡ refusals.Broken rule.NotLvalue at }
{
    Refusal::Broken {
        rule: Rule::NotLvalue,
        at,
    }
}

// What may be written: the object of a name, or what a pointer points to. `at` is the place of the node that writes.
// Callers ask for it first and look at the answer last, so that no tree by value is left where another rule is broken.
fn target_of(at: u32, e: TypedExpr) -> Result<Target, Refusal>
    ensures target { IfOk result (λ t. rules.lvalue_of (expr_of e) ≡ Some (lvalue_of t.form t.at)) }
    ensures none { IfErr result (λ _. rules.lvalue_of (expr_of e) ≡ None) }
    ensures refused { IfErr result (λ f. f ≡ refusals.Broken rule.NotLvalue at) }
{
    let place = e.at;
    match e.form {
        ExprForm::Read(reference) => Ok(Target {
            form: TargetForm::Named(reference),
            at: place,
        }),
        ExprForm::Load(pointer) => Ok(Target {
            form: TargetForm::At(pointer),
            at: place,
        }),
        other => {
            drop(other);
            Err(not_lvalue(at))
        }
    }
}

// What a value gives where one of this type is wanted, in a box.
fn given_boxed(
    alloc: Global,
    kind: ScalarType,
    at: u32,
    x: Operand,
) -> Result<Box<TypedExpr>, Refusal>
    ensures { Follows (λ e. expr_of e.value) (rules.given kind at (operand_of x)) result }
{
    let value = given(alloc, kind, at, x)?;
    in_box(alloc, value)
}

/// `=`: 6.3.16.1.
pub fn assigned(alloc: Global, at: u32, to: TypedExpr, value: Operand) -> Result<TypedExpr, Refusal>
    ensures { Follows expr_of (rules.assigned at (expr_of to) (operand_of value)) result }
{
    let kind = to.kind;
    let target = target_of(at, to);
    let Some(kind) = kind else {
        drop(value);
        return Err(mismatch(at));
    };
    let value = given_boxed(alloc, kind, at, value)?;
    let form = ExprForm::Assign { to: target?, value };
    Ok(TypedExpr {
        form,
        kind: Some(kind),
        at,
    })
}

fn is_comparison(op: BinaryOp) -> bool
    ensures { result ≡ well_formed.is_comparison op }
{
    matches!(
        op,
        BinaryOp::Eq | BinaryOp::Ne | BinaryOp::Lt | BinaryOp::Gt | BinaryOp::Le | BinaryOp::Ge
    )
}

// Whether `op=` takes operands of these classes: 6.3.16.2. No comparison has this form.
fn takes(op: BinaryOp, to: Class, value: Class) -> bool
    ensures { result ≡ rules.takes op to value }
{
    match (to, value) {
        (Class::Integer, Class::Integer) => !is_comparison(op),
        (Class::Pointer, Class::Integer) => matches!(op, BinaryOp::Add | BinaryOp::Sub),
        _ => false,
    }
}

/// `op=`: 6.3.16.2. The value keeps its own type.
pub fn assigned_by(
    alloc: Global,
    op: BinaryOp,
    at: u32,
    to: TypedExpr,
    value: TypedExpr,
) -> Result<TypedExpr, Refusal>
    ensures { Follows expr_of (rules.assigned_by op at (expr_of to) (expr_of value)) result }
{
    let kind = to.kind;
    let target = target_of(at, to);
    let value = in_box(alloc, value)?;
    if !takes(op, class_of(kind), class_of(value.kind)) {
        return Err(mismatch(at));
    }
    let form = ExprForm::AssignOp {
        op,
        to: target?,
        value,
    };
    Ok(TypedExpr { form, kind, at })
}

/// `++` or `--` before its operand: 6.3.3.1.
pub fn stepped_before(up: bool, at: u32, value: TypedExpr) -> Result<TypedExpr, Refusal>
    ensures { Follows expr_of (rules.stepped_before up at (expr_of value)) result }
{
    let kind = value.kind;
    let target = target_of(at, value);
    if kind.is_none() {
        return Err(mismatch(at));
    }
    let form = ExprForm::StepBefore { up, to: target? };
    Ok(TypedExpr { form, kind, at })
}

/// `++` or `--` behind its operand: 6.3.2.4.
pub fn stepped_after(up: bool, at: u32, value: TypedExpr) -> Result<TypedExpr, Refusal>
    ensures { Follows expr_of (rules.stepped_after up at (expr_of value)) result }
{
    let kind = value.kind;
    let target = target_of(at, value);
    if kind.is_none() {
        return Err(mismatch(at));
    }
    let form = ExprForm::StepAfter { up, to: target? };
    Ok(TypedExpr { form, kind, at })
}

/// `&`: 6.3.3.2. That of what a pointer points to is the pointer itself.
pub fn address(is_array: bool, at: u32, value: TypedExpr) -> Result<TypedExpr, Refusal>
    ensures { Follows expr_of (rules.address is_array at (expr_of value)) result }
{
    let kind = value.kind;
    let target = target_of(at, value);
    let kind = match kind {
        Some(kind) if !is_array => kind,
        _ => return Err(mismatch(at)),
    };
    match target?.form {
        TargetForm::Named(reference) => address_of(kind, at, reference),
        TargetForm::At(pointer) => Ok(Box::into_inner(pointer)),
    }
}

// The address of an object of this type.
fn address_of(kind: ScalarType, at: u32, reference: VarRef) -> Result<TypedExpr, Refusal>
    ensures typed { IfOk result (λ e. expr_of e ≡ Node (AddressOf reference) (Some (kinds.pointer_to kind)) at) }
    ensures memory { IfErr result (λ f. f ≡ refusals.NoMemory) }
{
    let Some(pointer) = pointer_to(kind) else {
        return Err(Refusal::NoMemory);
    };
    Ok(TypedExpr {
        form: ExprForm::AddressOf(reference),
        kind: Some(pointer),
        at,
    })
}

/// `*`: 6.3.3.2.
pub fn loaded(alloc: Global, at: u32, value: TypedExpr) -> Result<TypedExpr, Refusal>
    ensures { Follows expr_of (rules.loaded at (expr_of value)) result }
{
    let pointer = in_box(alloc, value)?;
    let kind = match pointer.kind {
        Some(kind) if kind.stars > 0 => pointed(kind),
        _ => None,
    };
    if kind.is_none() {
        return Err(mismatch(at));
    }
    Ok(TypedExpr {
        form: ExprForm::Load(pointer),
        kind,
        at,
    })
}

/// `e[i]`: 6.3.2.1.
pub fn indexed(
    alloc: Global,
    at: u32,
    left: TypedExpr,
    right: TypedExpr,
) -> Result<TypedExpr, Refusal>
    ensures { Follows expr_of (rules.indexed at (expr_of left) (expr_of right)) result }
{
    let pair = boxed(alloc, left, right)?;
    let cell = sum(alloc, at, pair)?;
    loaded(alloc, at, cell)
}
