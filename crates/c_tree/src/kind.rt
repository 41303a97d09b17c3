//! How the values of a type are read.
ghost use Rattle.std.specs.Prelude.{◌≡◌};
ghost use Rattle.c_tree.specs.Eval as eval;

use crate::program::{Base, ScalarType};
use c_syntax::BinaryOp;

/// Whether a value of this type is a pointer.
pub fn points(kind: Option<ScalarType>) -> bool
    ensures { result ≡ eval.points kind }
{
    kind.is_some_and(|kind| kind.stars > 0)
}

/// Whether a word of this type is read without a sign.
pub fn is_unsigned(kind: Option<ScalarType>) -> bool
    ensures { result ≡ eval.is_unsigned kind }
{
    matches!(
        kind,
        Some(ScalarType {
            base: Base::Unsigned,
            stars: 0
        })
    )
}

/// Whether an operator on operands of these types computes without a sign: a shift by its left type, any other where one
/// type is unsigned.
pub fn without_sign(op: BinaryOp, left: Option<ScalarType>, right: Option<ScalarType>) -> bool
    ensures { result ≡ eval.without_sign op left right }
{
    match op {
        BinaryOp::Shl | BinaryOp::Shr => is_unsigned(left),
        _ => is_unsigned(left) || is_unsigned(right),
    }
}
