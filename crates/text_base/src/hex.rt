//! Words in hexadecimal digits.
ghost use Rattle.std.specs.Prelude.{◌≡◌, ◌≢◌, ◌<◌, ◌^◌, ◌∷◌, ◌++◌, ℕ, List, MatchOption, OnOk, OnErr};
ghost use Rattle.text_base.specs.Hex.{hex_digit, hex4};

use word_base::NoMemory;

/// The digits of a word.
const DIGITS: usize = 4;

// A lower-case digit.
fn digit_of(value: u16) -> u8
    requires { value < 16 }
    ensures { result ≡ hex_digit value }
{
    if value < 10 {
        b'0' + value as u8
    } else {
        b'a' + (value - 10) as u8
    }
}

/// Puts a word as four lower-case hexadecimal digits behind a text, which is as it was where memory is wanting.
pub fn push_hex(text: &mut Vec<u8>, word: u16) -> Result<(), NoMemory>
    ensures put { OnOk result (text.new.items ≡ text.old.items ++ hex4 word) }
    ensures kept { OnErr result (text.new.items ≡ text.old.items) }
{
    text.extend_from_slice(&[
        digit_of(word / 4096),
        digit_of(word / 256 % 16),
        digit_of(word / 16 % 16),
        digit_of(word % 16),
    ])?;
    Ok(())
}

// The value of a lower-case digit.
fn value_of(byte: u8) -> Option<u16>
    ensures { MatchOption result ((d : ℕ) → d < 16 → byte ≢ hex_digit d) (λ d. (d < 16) × (byte ≡ hex_digit d)) }
{
    match byte {
        b'0'..=b'9' => Some(u16::from(byte - b'0')),
        b'a'..=b'f' => Some(u16::from(byte - b'a') + 10),
        _ => None,
    }
}

/// The word that the bytes spell as four lower-case digits.
pub fn read_hex(bytes: &[u8]) -> Option<u16>
    ensures { MatchOption result ((w : ℕ) → w < 2 ^ 16 → bytes.now ≢ hex4 w) (λ w. bytes.now ≡ hex4 w) }
{
    let [a, b, c, d] = bytes else {
        return None;
    };
    let high = value_of(*a)? * 16 + value_of(*b)?;
    let low = value_of(*c)? * 16 + value_of(*d)?;
    Some(high * 256 + low)
}

/// The word at the front, and what stands behind it.
pub fn front_word(bytes: &[u8]) -> Option<(u16, &[u8])>
    ensures { MatchOption result ((w : ℕ) → w < 2 ^ 16 → (tail : List ℕ) → bytes.now ≢ hex4 w ++ tail) (λ found. bytes.now ≡ hex4 found.0 ++ found.1.now) }
{
    if bytes.len() < DIGITS {
        return None;
    }
    let (digits, rest) = bytes.split_at(DIGITS);
    Some((read_hex(digits)?, rest))
}

/// The word behind one space at the front, and what stands behind it.
pub fn front_spaced(bytes: &[u8]) -> Option<(u16, &[u8])>
    ensures { MatchOption result ((w : ℕ) → w < 2 ^ 16 → (tail : List ℕ) → bytes.now ≢ 32 ∷ hex4 w ++ tail) (λ found. bytes.now ≡ 32 ∷ hex4 found.0 ++ found.1.now) }
{
    let [b' ', rest @ ..] = bytes else {
        return None;
    };
    front_word(rest)
}
