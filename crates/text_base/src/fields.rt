//! The fields of a line.
ghost use Rattle.std.specs.Prelude.{◌≡◌, ◌≢◌, ◌<◌, ◌^◌, ◌∷◌, [], ◌++◌, ℕ, List, MatchOption, decimal};
ghost use Rattle.text_base.specs.Fields.{IsSpacedOff};
ghost use Rattle.text_base.specs.Lines.{Lacks};

use crate::decimal::read_decimal;

/// What stands before the first byte of a kind, and what stands behind it.
pub fn front_until(bytes: &[u8], mark: u8) -> Option<(&[u8], &[u8])>
    ensures { MatchOption result (Lacks mark bytes.now) (λ found. Lacks mark found.0.now × (bytes.now ≡ (found.0.now ++ mark ∷ []) ++ found.1.now)) }
{
    let end = bytes.iter().position(|byte| *byte == mark)?;
    Some((&bytes[..end], &bytes[end + 1..]))
}

/// What stands before the first space, and the rest from there on.
pub fn front_field(bytes: &[u8]) -> (&[u8], &[u8])
    ensures { Lacks 32 result.0.now × IsSpacedOff result.1.now × (bytes.now ≡ result.0.now ++ result.1.now) }
{
    match bytes.iter().position(|byte| *byte == b' ') {
        Some(end) => bytes.split_at(end),
        None => bytes.split_at(bytes.len()),
    }
}

/// What stands behind a word.
pub fn behind_word<'b>(line: &'b [u8], word: &[u8]) -> Option<&'b [u8]>
    ensures { MatchOption result ((rest : List ℕ) → line.now ≢ word.now ++ rest) (λ rest. line.now ≡ word.now ++ rest.now) }
{
    line.strip_prefix(word)
}

/// The number that stands behind a word.
pub fn number_behind(line: &[u8], word: &[u8]) -> Option<u64>
    ensures { MatchOption result ((n : ℕ) → n < 2 ^ 64 → line.now ≢ word.now ++ decimal n) (λ n. line.now ≡ word.now ++ decimal n) }
{
    let digits = behind_word(line, word)?;
    let number = read_decimal(digits)?;
    Some(number)
}

/// The two numbers, with one space between them.
pub fn read_pair(bytes: &[u8]) -> Option<(u64, u64)>
    ensures { MatchOption result
        ((m n : ℕ) → m < 2 ^ 64 → n < 2 ^ 64 → bytes.now ≢ decimal m ++ 32 ∷ decimal n)
        (λ found. bytes.now ≡ decimal found.0 ++ 32 ∷ decimal found.1) }
{
    let (digits, rest) = front_field(bytes);
    let first = read_decimal(digits)?;
    let others = behind_word(rest, b" ")?;
    let second = read_decimal(others)?;
    Some((first, second))
}
