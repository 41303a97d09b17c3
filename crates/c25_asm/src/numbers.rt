//! Numbers, and the words that end with one.
ghost use Rattle.std.specs.Prelude.{◌≡◌, ◌<◌, ◌≤◌, option_copied};
ghost use Rattle.c25_asm.specs.Numbers as numbers;

use crate::statement::LineFault;

// What digits stand for, or 4,294,967,295 where that is greater.
#[tactic(auto, using(crate::proofs::NumberLemmas::nothing_read, crate::proofs::NumberLemmas::digit_read, crate::proofs::NumberLemmas::all_read, crate::proofs::NumberLemmas::no_digit, crate::proofs::NumberLemmas::no_digits))]
fn digits(text: &[u8], base: u32) -> Option<u32>
    requires at_least_two { 2 ≤ base }
    requires at_most_36 { base ≤ 36 }
    ensures { result ≡ numbers.capped (numbers.digits base text.now) }
{
    if text.is_empty() {
        return None;
    }
    let mut value = 0u32;
    let mut rest = text;
    while let Some((first, after)) = rest.split_first() {
        let digit = char::from(*first).to_digit(base)?;
        value = value.saturating_mul(base).saturating_add(digit);
        rest = after;
    }
    Some(value)
}

// What stands behind a text at the front, where it stands there.
fn behind_front<'a>(front: &[u8], text: &'a [u8]) -> Option<&'a [u8]>
    ensures { option_copied result ≡ numbers.behind_front front.now text.now }
{
    text.strip_prefix(front)
}

/// The number that a text is, or 4,294,967,295 where it is greater.
pub(crate) fn number(text: &[u8]) -> Option<u32>
    ensures { result ≡ numbers.capped (numbers.number text.now) }
{
    match behind_front(b"0x", text) {
        Some(hexadecimal) => digits(hexadecimal, 16),
        None => digits(text, 10),
    }
}

/// A number below a bound.
pub(crate) fn below(bound: u32, number: Option<u32>) -> Result<u16, LineFault>
    requires { bound ≤ 65536 }
    ensures { result ≡ numbers.below bound number }
{
    match number {
        None => Err(LineFault::BadLine),
        Some(number) if number < bound => Ok(number as u16),
        Some(_) => Err(LineFault::OutOfRange),
    }
}

/// The number that a text is, where it is below a bound.
pub(crate) fn number_below(bound: u32, text: &[u8]) -> Result<u16, LineFault>
    requires { bound ≤ 65536 }
    ensures { result ≡ numbers.below bound (numbers.number text.now) }
{
    below(bound, number(text))
}

/// The same, of at most 8 bits.
pub(crate) fn byte_below(bound: u32, text: &[u8]) -> Result<u8, LineFault>
    requires { bound ≤ 256 }
    ensures { result ≡ numbers.below bound (numbers.number text.now) }
{
    Ok(number_below(bound, text)? as u8)
}

/// A number that may have a minus sign, from -4096 to 4095.
pub(crate) fn signed_number(text: &[u8]) -> Result<i16, LineFault>
    ensures { result ≡ numbers.signed_number text.now }
{
    match behind_front(b"-", text) {
        Some(magnitude) => Ok(-(number_below(4097, magnitude)? as i16)),
        None => Ok(number_below(4096, text)? as i16),
    }
}

// Whether a number of more than one digit begins with 0.
fn has_zero_in_front(text: &[u8]) -> bool
    ensures { result ≡ numbers.has_zero_in_front text.now }
{
    text.len() > 1 && text[0] == b'0'
}

/// The decimal number below a bound that stands behind a word, without zeros in front.
pub(crate) fn numbered(front: &[u8], bound: u32, text: &[u8]) -> Option<u8>
    requires { bound ≤ 256 }
    ensures { result ≡ numbers.numbered front.now bound text.now }
{
    let text = behind_front(front, text)?;
    let number = digits(text, 10)?;
    if number < bound && !has_zero_in_front(text) {
        Some(number as u8)
    } else {
        None
    }
}
