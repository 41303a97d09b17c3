//! Two operands of one node: the type to which they come, and the null pointers among them: ISO 9899:1990 6.2.1.5 and 6.3.15.
ghost use Rattle.c_rules.specs.Answers.{Follows};
ghost use Rattle.std.specs.Prelude.{◌≡◌, IfOk, IfErr};
ghost use Rattle.c_tree.specs.View.{expr_of};
ghost use Rattle.c_rules.specs.declared.fault.Refusal.TheVariants as refusals;
ghost use Rattle.c_rules.specs.Operands as rules;
ghost use Rattle.c_operands.specs.PairView.{pair_of, left_of, right_of, beside_void};

use c_conversions::{
    INT, class_of, common, conversion, in_box, is_void_pointer, null_of, same_kind,
};
use c_rules::{Class, Refusal, mismatch};
use c_tree::{ScalarType, TypedExpr};
use std::alloc::Global;

/// The two values below a node.
#[derive(Drop)]
pub(crate) struct Pair {
    pub(crate) left: Box<TypedExpr>,
    pub(crate) right: Box<TypedExpr>,
}

/// Two values as they are, each in a box. What is refused behind this drops boxes alone: a tree by value that may be dropped
/// is dear to prove.
pub(crate) fn boxed(alloc: Global, left: TypedExpr, right: TypedExpr) -> Result<Pair, Refusal>
    ensures left { IfOk result (λ p. p.left.value ≡ left) }
    ensures right { IfOk result (λ p. p.right.value ≡ right) }
    ensures memory { IfErr result (λ f. f ≡ refusals.NoMemory) }
{
    let left = in_box(alloc, left);
    let right = in_box(alloc, right);
    Ok(Pair {
        left: left?,
        right: right?,
    })
}

// A value as one of this type: a conversion stands where the types differ.
fn as_kind(alloc: Global, kind: ScalarType, e: Box<TypedExpr>) -> Result<Box<TypedExpr>, Refusal>
    ensures typed { IfOk result (λ x. expr_of x.value ≡ rules.converted kind (expr_of e.value)) }
    ensures memory { IfErr result (λ f. f ≡ refusals.NoMemory) }
{
    if same_kind(e.kind, Some(kind)) {
        return Ok(e);
    }
    let at = e.at;
    Ok(Box::new(alloc, conversion(Some(kind), at, e))?)
}

/// Two integers as their common type: 6.2.1.5.
pub(crate) fn balanced(alloc: Global, pair: Pair) -> Result<Pair, Refusal>
    ensures typed { IfOk result (λ p. pair_of p ≡ rules.balanced (expr_of pair.left.value) (expr_of pair.right.value)) }
    ensures memory { IfErr result (λ f. f ≡ refusals.NoMemory) }
{
    let kind = common_of(pair.left.kind, pair.right.kind);
    let left = as_kind(alloc, kind, pair.left)?;
    let right = as_kind(alloc, kind, pair.right)?;
    Ok(Pair { left, right })
}

fn common_of(a: Option<ScalarType>, b: Option<ScalarType>) -> ScalarType
    ensures { result ≡ rules.common_of a b }
{
    match (a, b) {
        (Some(a), Some(b)) => common(a, b),
        _ => INT,
    }
}

// The null pointer in the place of `y`, of the type of `x`.
fn null_like(alloc: Global, x: &TypedExpr, y: Box<TypedExpr>) -> Result<Box<TypedExpr>, Refusal>
    ensures typed { IfOk result (λ e. expr_of e.value ≡ rules.null_like (expr_of x.now) (expr_of y.value)) }
    ensures memory { IfErr result (λ f. f ≡ refusals.NoMemory) }
{
    match x.kind {
        Some(kind) => Ok(Box::new(alloc, null_of(kind, y.at))?),
        None => Ok(y),
    }
}

// `y` as a value of the type of `x`.
fn converted_like(
    alloc: Global,
    x: &TypedExpr,
    y: Box<TypedExpr>,
) -> Result<Box<TypedExpr>, Refusal>
    ensures typed { IfOk result (λ e. expr_of e.value ≡ rules.converted_like (expr_of x.now) (expr_of y.value)) }
    ensures memory { IfErr result (λ f. f ≡ refusals.NoMemory) }
{
    match x.kind {
        Some(kind) => as_kind(alloc, kind, y),
        None => Ok(y),
    }
}

// A pointer with a null pointer of its type on the right.
fn beside_null(alloc: Global, pair: Pair) -> Result<Pair, Refusal>
    ensures typed { IfOk result (λ p. pair_of p ≡ record { left = expr_of pair.left.value; right = rules.null_like (expr_of pair.left.value) (expr_of pair.right.value) }) }
    ensures memory { IfErr result (λ f. f ≡ refusals.NoMemory) }
{
    let Pair { left, right } = pair;
    let right = null_like(alloc, &left, right)?;
    Ok(Pair { left, right })
}

// A null pointer of the type of the pointer behind it.
fn behind_null(alloc: Global, pair: Pair) -> Result<Pair, Refusal>
    ensures typed { IfOk result (λ p. pair_of p ≡ record { left = rules.null_like (expr_of pair.right.value) (expr_of pair.left.value); right = expr_of pair.right.value }) }
    ensures memory { IfErr result (λ f. f ≡ refusals.NoMemory) }
{
    let Pair { left, right } = pair;
    let left = null_like(alloc, &right, left)?;
    Ok(Pair { left, right })
}

/// Two values as one type: integers, or pointers, of which one may be null.
pub(crate) fn met(
    alloc: Global,
    at: u32,
    pair: Pair,
    left_null: bool,
    right_null: bool,
) -> Result<Pair, Refusal>
    ensures { Follows pair_of (rules.met at (left_of pair left_null) (right_of pair right_null)) result }
{
    match (class_of(pair.left.kind), class_of(pair.right.kind)) {
        (Class::Integer, Class::Integer) => balanced(alloc, pair),
        (Class::Pointer, Class::Pointer) => pointers_met(alloc, at, pair, left_null, right_null),
        (Class::Pointer, Class::Integer) if right_null => beside_null(alloc, pair),
        (Class::Integer, Class::Pointer) if left_null => behind_null(alloc, pair),
        _ => Err(mismatch(at)),
    }
}

// Two pointers as one type: a null pointer takes the other's type, and beside a void pointer the other is converted.
fn pointers_met(
    alloc: Global,
    at: u32,
    pair: Pair,
    left_null: bool,
    right_null: bool,
) -> Result<Pair, Refusal>
    ensures { Follows pair_of (rules.pointers_met at (left_of pair left_null) (right_of pair right_null)) result }
{
    if same_kind(pair.left.kind, pair.right.kind) {
        return Ok(pair);
    }
    if right_null {
        return beside_null(alloc, pair);
    }
    if left_null {
        return behind_null(alloc, pair);
    }
    beside_void(alloc, at, pair)
}

// Two pointers of which one is a void pointer: the other is converted to it.
fn beside_void(alloc: Global, at: u32, pair: Pair) -> Result<Pair, Refusal>
    ensures { Follows pair_of (beside_void at (expr_of pair.left.value) (expr_of pair.right.value)) result }
{
    let Pair { left, right } = pair;
    if is_void_pointer(left.kind) {
        let right = converted_like(alloc, &left, right)?;
        return Ok(Pair { left, right });
    }
    if is_void_pointer(right.kind) {
        let left = converted_like(alloc, &right, left)?;
        return Ok(Pair { left, right });
    }
    Err(mismatch(at))
}
