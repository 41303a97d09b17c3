//! Conversions of values: ISO 9899:1990 6.2.1.5, 6.2.2.3, 6.3.4 and 6.3.16.1.
ghost use Rattle.c_rules.specs.Answers.{Follows};
ghost use Rattle.std.specs.Prelude.{◌≡◌, ◌||◌, Some, not, IfOk, IfErr};
ghost use Rattle.c_tree.specs.View.{expr_of};
ghost use Rattle.c_tree.specs.TypedTree.{Node, Const, Convert};
ghost use Rattle.c_rules.specs.declared.fault.Refusal.TheVariants as refusals;
ghost use Rattle.c_rules.specs.declared.fault.Rule.TheVariants as rule;
ghost use Rattle.c_rules.specs.Outcome.{Is, breaks};
ghost use Rattle.c_rules.specs.Kinds as kinds;
ghost use Rattle.c_rules.specs.Operands as rules;
ghost use Rattle.c_conversions.specs.OperandView.{operand_of};

use crate::kinds::{VOID_POINTER, class_of, is_void_pointer, same_kind, same_type};
use c_rules::{Class, Refusal, mismatch};
use c_tree::{ExprForm, ScalarType, TypedExpr};
use std::alloc::Global;

/// An operand, and whether its text is that of a null pointer.
#[derive(Drop)]
pub struct Operand {
    pub value: TypedExpr,
    pub null: bool,
}

/// A value in a box. Where there is no memory, the value is let go here.
pub fn in_box(alloc: Global, e: TypedExpr) -> Result<Box<TypedExpr>, Refusal>
    ensures value { IfOk result (λ b. b.value ≡ e) }
    ensures memory { IfErr result (λ f. f ≡ refusals.NoMemory) }
{
    Ok(Box::new(alloc, e)?)
}

// A value as one of this type: a conversion stands where the types differ.
fn converted(alloc: Global, kind: ScalarType, e: TypedExpr) -> Result<TypedExpr, Refusal>
    ensures typed { IfOk result (λ x. expr_of x ≡ rules.converted kind (expr_of e)) }
    ensures memory { IfErr result (λ f. f ≡ refusals.NoMemory) }
{
    if same_kind(e.kind, Some(kind)) {
        return Ok(e);
    }
    differing(alloc, kind, e)
}

// A value of another type as one of this type.
fn differing(alloc: Global, kind: ScalarType, e: TypedExpr) -> Result<TypedExpr, Refusal>
    ensures typed { IfOk result (λ x. expr_of x ≡ Node (Convert (expr_of e)) (Some kind) e.at) }
    ensures memory { IfErr result (λ f. f ≡ refusals.NoMemory) }
{
    let at = e.at;
    let value = in_box(alloc, e)?;
    Ok(conversion(Some(kind), at, value))
}

/// A word of a type.
pub fn word(value: u16, kind: ScalarType, at: u32) -> TypedExpr
    ensures { expr_of result ≡ Node (Const value) (Some kind) at }
{
    TypedExpr {
        form: ExprForm::Const(value),
        kind: Some(kind),
        at,
    }
}

/// The null pointer of a type, in the place of a value.
pub fn null_of(kind: ScalarType, at: u32) -> TypedExpr
    ensures { expr_of result ≡ Node (Const 0) (Some kind) at }
{
    word(0, kind, at)
}

/// What a value gives where one of this type is wanted: 6.3.16.1.
pub fn given(alloc: Global, kind: ScalarType, at: u32, x: Operand) -> Result<TypedExpr, Refusal>
    ensures { Follows expr_of (rules.given kind at (operand_of x)) result }
{
    match (class_of(Some(kind)), class_of(x.value.kind)) {
        (Class::Integer, Class::Integer) => converted(alloc, kind, x.value),
        (Class::Pointer, Class::Integer) => null_given(kind, at, x),
        (Class::Pointer, Class::Pointer) => pointer_given(alloc, kind, at, x),
        _ => {
            drop(x);
            Err(mismatch(at))
        }
    }
}

// What a pointer gives where one of this type is wanted.
fn pointer_given(alloc: Global, kind: ScalarType, at: u32, x: Operand) -> Result<TypedExpr, Refusal>
    ensures { Follows expr_of (rules.pointer_given kind at (operand_of x)) result }
{
    if !x.null && goes_with(kind, x.value.kind) {
        return converted(alloc, kind, x.value);
    }
    null_given(kind, at, x)
}

// Whether a pointer goes where one of this type is wanted: a void pointer goes with any, both ways.
fn goes_with(kind: ScalarType, other: Option<ScalarType>) -> bool
    ensures { result ≡ (kinds.is_void_pointer (Some kind) || kinds.is_void_pointer other || kinds.same_kind other (Some kind)) }
{
    is_void_pointer(Some(kind)) || is_void_pointer(other) || same_kind(other, Some(kind))
}

// The null pointer of a type, where the operand is one.
fn null_given(kind: ScalarType, at: u32, x: Operand) -> Result<TypedExpr, Refusal>
    ensures { Follows expr_of (breaks (not x.null) rule.Mismatch at (Is (rules.null_of kind (expr_of x.value)))) result }
{
    let (place, null) = (x.value.at, x.null);
    drop(x);
    if null {
        Ok(null_of(kind, place))
    } else {
        Err(mismatch(at))
    }
}

/// A value as one of another type, or as none, at this place.
pub fn conversion(kind: Option<ScalarType>, at: u32, value: Box<TypedExpr>) -> TypedExpr
    ensures { expr_of result ≡ Node (Convert (expr_of value.value)) kind at }
{
    TypedExpr {
        form: ExprForm::Convert(value),
        kind,
        at,
    }
}

/// A cast, between integers, between pointers, to void, and of 0 to a void pointer: 6.3.4.
pub fn cast(
    alloc: Global,
    to: Option<ScalarType>,
    at: u32,
    x: Operand,
) -> Result<TypedExpr, Refusal>
    ensures { Follows expr_of (rules.cast to at (operand_of x)) result }
{
    let value = in_box(alloc, x.value)?;
    let Some(kind) = to else {
        return Ok(conversion(None, at, value));
    };
    match (class_of(Some(kind)), class_of(value.kind)) {
        (Class::Integer, Class::Integer) | (Class::Pointer, Class::Pointer) => {
            Ok(conversion(Some(kind), at, value))
        }
        (Class::Pointer, Class::Integer) if x.null && same_type(kind, VOID_POINTER) => {
            Ok(null_of(kind, at))
        }
        _ => Err(mismatch(at)),
    }
}
