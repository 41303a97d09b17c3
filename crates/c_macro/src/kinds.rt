//! Kinds of tokens.
ghost use Rattle.std.specs.Prelude.{◌≡◌, ◌↔◌, IsTrue, IfOk};

use c_syntax::TokenKind;
use std::alloc::Global;
use word_base::{NoMemory, Text};

// Whether two tokens have one kind.
fn is_same(a: &TokenKind, b: &TokenKind) -> bool
    ensures { IsTrue result ↔ (a.now ≡ b.now) }
{
    match (a, b) {
        (TokenKind::Word(a), TokenKind::Word(b)) => a == b,
        (TokenKind::Name(a), TokenKind::Name(b)) => a.as_str() == b.as_str(),
        (
            TokenKind::Number {
                value: a,
                unsigned_mark: a_mark,
                decimal: a_decimal,
            },
            TokenKind::Number {
                value: b,
                unsigned_mark: b_mark,
                decimal: b_decimal,
            },
        ) => a == b && a_mark == b_mark && a_decimal == b_decimal,
        (TokenKind::Char(a), TokenKind::Char(b)) => a == b,
        (TokenKind::Mark(a), TokenKind::Mark(b)) => a == b,
        _ => false,
    }
}

/// Whether two lists of tokens have the same kinds.
pub(crate) fn are_same(left: &[TokenKind], right: &[TokenKind]) -> bool
    ensures { IsTrue result ↔ (left.now ≡ right.now) }
{
    let (mut a, mut b) = (left, right);
    while let (Some((first_a, rest_a)), Some((first_b, rest_b))) = (
        a.split_first(),
        b.split_first(),
    ) {
        if !is_same(first_a, first_b) {
            return false;
        }
        (a, b) = (rest_a, rest_b);
    }
    a.is_empty() && b.is_empty()
}

/// A kind again.
pub(crate) fn copy_of(alloc: Global, kind: &TokenKind) -> Result<TokenKind, NoMemory>
    ensures { IfOk result (λ copy. copy ≡ kind.now) }
{
    Ok(match kind {
        TokenKind::Word(keyword) => TokenKind::Word(*keyword),
        TokenKind::Name(name) => TokenKind::Name(Text::copy_of(alloc, name.as_str())?),
        TokenKind::Number {
            value,
            unsigned_mark,
            decimal,
        } => TokenKind::Number {
            value: *value,
            unsigned_mark: *unsigned_mark,
            decimal: *decimal,
        },
        TokenKind::Char(value) => TokenKind::Char(*value),
        TokenKind::Mark(mark) => TokenKind::Mark(*mark),
    })
}
