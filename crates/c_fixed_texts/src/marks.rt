//! Marks, by how many characters they have.
ghost use Rattle.std.specs.Prelude.{ℕ, List, MatchOption};
ghost use Rattle.c_syntax.specs.declared.token.Punct.{Punct};
ghost use Rattle.c_fixed_texts.specs.Marks.{IsMarkOf};

use c_syntax::Punct;

/// The mark of three characters at the front, and what stands behind it.
pub fn mark_of_three(bytes: &[u8]) -> Option<(Punct, &[u8])>
    ensures { MatchOption result
        ((p : Punct) (rest : List ℕ) → IsMarkOf 3 bytes.now p rest → ⊥)
        (λ found. IsMarkOf 3 bytes.now found.0 found.1.now) }
{
    match bytes {
        [b'.', b'.', b'.', rest @ ..] => Some((Punct::Ellipsis, rest)),
        [b'<', b'<', b'=', rest @ ..] => Some((Punct::ShiftLeftAssign, rest)),
        [b'>', b'>', b'=', rest @ ..] => Some((Punct::ShiftRightAssign, rest)),
        _ => None,
    }
}

/// The mark of two characters at the front, and what stands behind it.
pub fn mark_of_two(bytes: &[u8]) -> Option<(Punct, &[u8])>
    ensures { MatchOption result
        ((p : Punct) (rest : List ℕ) → IsMarkOf 2 bytes.now p rest → ⊥)
        (λ found. IsMarkOf 2 bytes.now found.0 found.1.now) }
{
    match bytes {
        [b'-', b'>', rest @ ..] => Some((Punct::Arrow, rest)),
        [b'+', b'+', rest @ ..] => Some((Punct::PlusPlus, rest)),
        [b'-', b'-', rest @ ..] => Some((Punct::MinusMinus, rest)),
        [b'<', b'<', rest @ ..] => Some((Punct::ShiftLeft, rest)),
        [b'>', b'>', rest @ ..] => Some((Punct::ShiftRight, rest)),
        [b'<', b'=', rest @ ..] => Some((Punct::LessEqual, rest)),
        [b'>', b'=', rest @ ..] => Some((Punct::GreaterEqual, rest)),
        [b'=', b'=', rest @ ..] => Some((Punct::EqualEqual, rest)),
        [b'!', b'=', rest @ ..] => Some((Punct::NotEqual, rest)),
        [b'&', b'&', rest @ ..] => Some((Punct::AndAnd, rest)),
        [b'|', b'|', rest @ ..] => Some((Punct::OrOr, rest)),
        [b'+', b'=', rest @ ..] => Some((Punct::PlusAssign, rest)),
        [b'-', b'=', rest @ ..] => Some((Punct::MinusAssign, rest)),
        [b'*', b'=', rest @ ..] => Some((Punct::StarAssign, rest)),
        [b'/', b'=', rest @ ..] => Some((Punct::SlashAssign, rest)),
        [b'%', b'=', rest @ ..] => Some((Punct::PercentAssign, rest)),
        [b'&', b'=', rest @ ..] => Some((Punct::AmpersandAssign, rest)),
        [b'|', b'=', rest @ ..] => Some((Punct::BarAssign, rest)),
        [b'^', b'=', rest @ ..] => Some((Punct::CaretAssign, rest)),
        _ => None,
    }
}

/// The mark of one character at the front, and what stands behind it.
pub fn mark_of_one(bytes: &[u8]) -> Option<(Punct, &[u8])>
    ensures { MatchOption result
        ((p : Punct) (rest : List ℕ) → IsMarkOf 1 bytes.now p rest → ⊥)
        (λ found. IsMarkOf 1 bytes.now found.0 found.1.now) }
{
    match bytes {
        [b'[', rest @ ..] => Some((Punct::OpenBracket, rest)),
        [b']', rest @ ..] => Some((Punct::CloseBracket, rest)),
        [b'(', rest @ ..] => Some((Punct::OpenParen, rest)),
        [b')', rest @ ..] => Some((Punct::CloseParen, rest)),
        [b'{', rest @ ..] => Some((Punct::OpenBrace, rest)),
        [b'}', rest @ ..] => Some((Punct::CloseBrace, rest)),
        [b',', rest @ ..] => Some((Punct::Comma, rest)),
        [b';', rest @ ..] => Some((Punct::Semicolon, rest)),
        [b':', rest @ ..] => Some((Punct::Colon, rest)),
        [b'?', rest @ ..] => Some((Punct::Question, rest)),
        [b'~', rest @ ..] => Some((Punct::Tilde, rest)),
        [b'.', rest @ ..] => Some((Punct::Dot, rest)),
        [b'+', rest @ ..] => Some((Punct::Plus, rest)),
        [b'-', rest @ ..] => Some((Punct::Minus, rest)),
        [b'*', rest @ ..] => Some((Punct::Star, rest)),
        [b'/', rest @ ..] => Some((Punct::Slash, rest)),
        [b'%', rest @ ..] => Some((Punct::Percent, rest)),
        [b'&', rest @ ..] => Some((Punct::Ampersand, rest)),
        [b'|', rest @ ..] => Some((Punct::Bar, rest)),
        [b'^', rest @ ..] => Some((Punct::Caret, rest)),
        [b'!', rest @ ..] => Some((Punct::Exclamation, rest)),
        [b'<', rest @ ..] => Some((Punct::Less, rest)),
        [b'>', rest @ ..] => Some((Punct::Greater, rest)),
        [b'=', rest @ ..] => Some((Punct::Assign, rest)),
        _ => None,
    }
}
