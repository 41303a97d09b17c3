//! Rows of digits.
ghost use Rattle.std.specs.Prelude.{◌≡◌, ◌≤◌, min, MatchOption};
ghost use Rattle.c_syntax.specs.Constants.{AreDigits, number_of, greatest_value};

/// The number that the digits stand for, or 4,294,967,295 where that is greater.
#[tactic(auto, using(crate::proofs::DigitLemmas::nothing_read, crate::proofs::DigitLemmas::reads_one, crate::proofs::DigitLemmas::reads_all, crate::proofs::DigitLemmas::stops_reading, crate::proofs::DigitLemmas::none_to_read))]
pub fn digits_value(text: &[u8], radix: u32) -> Option<u32>
    requires at_least_two { 2 ≤ radix }
    requires at_most_36 { radix ≤ 36 }
    ensures { MatchOption result (AreDigits radix text.now → ⊥)
        (λ value. AreDigits radix text.now × (value ≡ min greatest_value (number_of radix text.now))) }
{
    if text.is_empty() {
        return None;
    }
    let mut value = 0u32;
    let mut rest = text;
    while let Some((first, after)) = rest.split_first() {
        let digit = char::from(*first).to_digit(radix)?;
        value = value.saturating_mul(radix).saturating_add(digit);
        rest = after;
    }
    Some(value)
}
