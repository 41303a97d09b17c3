//! Operations on words, chosen by the types of the operands.
ghost use Rattle.std.specs.Prelude.{◌≡◌};
ghost use Rattle.tree_code.specs.Operations as operations;

use c_tree::{BinaryOp, ScalarType, is_unsigned, points};

/// An operation on two words. Where the sign matters there are two, and else it wraps.
#[derive(Clone, Copy, PartialEq, Eq)]
pub enum WordOp {
    Add,
    Sub,
    Mul,
    DivInt,
    DivUnsigned,
    RemInt,
    RemUnsigned,
    And,
    Or,
    Xor,
    Shl,
    ShrInt,
    ShrUnsigned,
    Eq,
    Ne,
    LtInt,
    LtUnsigned,
    GtInt,
    GtUnsigned,
    LeInt,
    LeUnsigned,
    GeInt,
    GeUnsigned,
}

// Whether the words of this type are ordered without a sign: pointers are.
fn is_ordered_unsigned(kind: Option<ScalarType>) -> bool
    ensures { result ≡ operations.is_ordered_unsigned kind }
{
    is_unsigned(kind) || points(kind)
}

fn one_of(unsigned: bool, of_unsigned: WordOp, of_int: WordOp) -> WordOp
    ensures { result ≡ operations.one_of unsigned of_unsigned of_int }
{
    if unsigned { of_unsigned } else { of_int }
}

/// The operation of an operator on operands of these types.
pub(crate) fn word_op(op: BinaryOp, left: Option<ScalarType>, right: Option<ScalarType>) -> WordOp
    ensures { result ≡ operations.word_op op left right }
{
    let unsigned = is_ordered_unsigned(left) || is_ordered_unsigned(right);
    match op {
        BinaryOp::Add => WordOp::Add,
        BinaryOp::Sub => WordOp::Sub,
        BinaryOp::Mul => WordOp::Mul,
        BinaryOp::Div => one_of(unsigned, WordOp::DivUnsigned, WordOp::DivInt),
        BinaryOp::Rem => one_of(unsigned, WordOp::RemUnsigned, WordOp::RemInt),
        BinaryOp::And => WordOp::And,
        BinaryOp::Or => WordOp::Or,
        BinaryOp::Xor => WordOp::Xor,
        BinaryOp::Shl => WordOp::Shl,
        BinaryOp::Shr => one_of(is_unsigned(left), WordOp::ShrUnsigned, WordOp::ShrInt),
        BinaryOp::Eq => WordOp::Eq,
        BinaryOp::Ne => WordOp::Ne,
        BinaryOp::Lt => one_of(unsigned, WordOp::LtUnsigned, WordOp::LtInt),
        BinaryOp::Gt => one_of(unsigned, WordOp::GtUnsigned, WordOp::GtInt),
        BinaryOp::Le => one_of(unsigned, WordOp::LeUnsigned, WordOp::LeInt),
        BinaryOp::Ge => one_of(unsigned, WordOp::GeUnsigned, WordOp::GeInt),
    }
}
