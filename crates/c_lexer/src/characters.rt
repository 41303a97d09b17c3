//! Character constants: ISO 9899:1990 6.1.3.4.
ghost use Rattle.std.specs.Prelude.{◌≡◌, ◌≢◌, ◌≤◌, ◌^◌, [], ◌∷◌, ◌++◌, ℕ, List, length, Some, MatchOption};
ghost use Rattle.c_syntax.specs.Constants.{AreDigits, number_of, beside, escapes, IsItem, IsCharacter};
ghost use Rattle.c_lexer.specs.Front.{HasNoQuote, IsHeadSize, HasNoItem, IsQuoted, IsBehindCharacter};

use c_spellings::{behind, digits_value};

/// The most octal digits of an escape.
const OCTAL_DIGITS: usize = 3;

/// The most hexadecimal digits of an escape.
const HEXADECIMAL_DIGITS: usize = 4;

// What stands before the first quote, and behind it.
fn until_quote(bytes: &[u8]) -> Option<(&[u8], &[u8])>
    ensures { MatchOption result (HasNoQuote bytes.now) (λ found. HasNoQuote found.0.now × (bytes.now ≡ found.0.now ++ 39 ∷ found.1.now)) }
{
    let end = bytes.iter().position(|byte| *byte == b'\'')?;
    Some((&bytes[..end], &bytes[end + 1..]))
}

// How many bytes at the front can't close a character constant: a quote right behind a backslash closes nothing.
fn head_size(inside: &[u8]) -> usize
    ensures { IsHeadSize inside.now result }
{
    match behind(inside, b"\\") {
        Some(_) => 2,
        None => 1,
    }
}

// What stands between the quote at the front and the one that closes it, and what stands behind that.
fn quoted(bytes: &[u8]) -> Option<(&[u8], &[u8])>
    ensures { MatchOption result (HasNoItem bytes.now) (λ found. IsQuoted bytes.now found.0.now found.1.now) }
{
    let Some(inside) = behind(bytes, b"'") else {
        return None;
    };
    let head = head_size(inside);
    if inside.len() < head {
        return None;
    }
    let (_, open) = inside.split_at(head);
    let Some((tail, rest)) = until_quote(open) else {
        return None;
    };
    let (item, _) = inside.split_at(head + tail.len());
    Some((item, rest))
}

// The number of an escape, in one to `most` digits.
fn escape_number(digits: &[u8], radix: u32, most: usize) -> Option<u16>
    requires at_least_two { 2 ≤ radix }
    requires at_most_36 { radix ≤ 36 }
    requires fits { radix ^ most ≤ 65536 }
    ensures { MatchOption result
        (AreDigits radix digits.now → length digits.now ≤ most → ⊥)
        (λ value. AreDigits radix digits.now × (length digits.now ≤ most) × (value ≡ number_of radix digits.now)) }
{
    if digits.len() > most {
        return None;
    }
    let Some(value) = digits_value(digits, radix) else {
        return None;
    };
    Some(value as u16)
}

// What a sign or letter behind a backslash stands for.
fn escaped(sign: u8) -> Option<u16>
    ensures { result ≡ beside sign escapes }
{
    match sign {
        b'\'' | b'"' | b'?' | b'\\' => Some(u16::from(sign)),
        b'a' => Some(7),
        b'b' => Some(8),
        b'f' => Some(12),
        b'n' => Some(10),
        b'r' => Some(13),
        b't' => Some(9),
        b'v' => Some(11),
        _ => None,
    }
}

// What the one sign or letter behind a backslash stands for.
fn escape_sign(signs: &[u8]) -> Option<u16>
    ensures { MatchOption result
        ((sign value : ℕ) → signs.now ≡ sign ∷ [] → beside sign escapes ≢ Some value)
        (λ value. (sign : ℕ) × (signs.now ≡ sign ∷ []) × (beside sign escapes ≡ Some value)) }
{
    match signs {
        [sign] => escaped(*sign),
        _ => None,
    }
}

// The value of what stands between the quotes.
fn item_value(item: &[u8]) -> Option<u16>
    ensures { MatchOption result ((value : ℕ) → IsItem item.now value → ⊥) (IsItem item.now) }
{
    if let Some(digits) = behind(item, b"\\x") {
        return escape_number(digits, 16, HEXADECIMAL_DIGITS);
    }
    if let Some(escape) = behind(item, b"\\") {
        return match escape_number(escape, 8, OCTAL_DIGITS) {
            Some(value) => Some(value),
            None => escape_sign(escape),
        };
    }
    match item {
        [code @ b' '..=b'~'] if *code != b'\'' => Some(u16::from(*code)),
        _ => None,
    }
}

/// The value of the character constant at the front, and what stands behind it.
pub fn character(bytes: &[u8]) -> Option<(u16, &[u8])>
    ensures { MatchOption result
        ((spelling rest : List ℕ) (value : ℕ) → IsCharacter spelling value → bytes.now ≢ spelling ++ rest)
        (λ found. IsBehindCharacter bytes.now found.0 found.1.now) }
{
    let Some((item, rest)) = quoted(bytes) else {
        return None;
    };
    match item_value(item) {
        Some(value) => Some((value, rest)),
        None => None,
    }
}
