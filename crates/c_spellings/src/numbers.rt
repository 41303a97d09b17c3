//! Integer constants: ISO 9899:1990 6.1.3.2.
ghost use Rattle.std.specs.Prelude.{ℕ, Bool, MatchOption};
ghost use Rattle.c_syntax.specs.Constants.{IsNumber};
ghost use Rattle.c_syntax.specs.Spelling.{Means};
ghost use Rattle.c_spellings.specs.Front.{IsWithoutSuffix, IsWithoutPrefix};

use crate::digits::digits_value;
use crate::prefix::behind;
use c_syntax::TokenKind;

// The text without the u or U at its end, and whether there is one.
fn without_suffix(text: &[u8]) -> (&[u8], bool)
    ensures { IsWithoutSuffix text.now result.0.now result.1 }
{
    match text.split_last() {
        Some((b'u' | b'U', bare)) => (bare, true),
        _ => (text, false),
    }
}

// The digits of a number, and their base.
fn without_prefix(text: &[u8]) -> (&[u8], u32)
    ensures { IsWithoutPrefix text.now result.0.now result.1 }
{
    if let Some(digits) = behind(text, b"0x") {
        return (digits, 16);
    }
    if let Some(digits) = behind(text, b"0X") {
        return (digits, 16);
    }
    match behind(text, b"0") {
        Some(_) => (text, 8),
        None => (text, 10),
    }
}

/// What the text of an integer constant means, where it is one: its value, whether it has a suffix, and whether it is
/// decimal. A value above 4,294,967,295 is kept as that number.
pub fn number(text: &[u8]) -> Option<TokenKind>
    ensures { MatchOption result
        ((value : ℕ) (marked decimal : Bool) → IsNumber text.now value marked decimal → ⊥)
        (Means text.now) }
{
    let (bare, unsigned_mark) = without_suffix(text);
    let (digits, radix) = without_prefix(bare);
    let Some(value) = digits_value(digits, radix) else {
        return None;
    };
    Some(TokenKind::Number {
        value,
        unsigned_mark,
        decimal: radix == 10,
    })
}
