//! The numbers of lines, and those at the front of what is left of one.
ghost use Rattle.std.specs.Prelude.{◌≡◌, ◌≢◌, ◌<◌, ◌≤◌, ◌^◌, ◌∷◌, ◌++◌, ℕ, List, MatchOption, codes, decimal};
ghost use Rattle.text_base.specs.Fields.{IsSpacedOff};
ghost use Rattle.lay_lines.specs.BlockText.{scalars_line, step_line};

use lay_model::MOST_STEP;
use text_base::{front_field, read_decimal};

/// How many scalars the line states.
pub fn read_scalars(line: &[u8]) -> Option<u64>
    ensures { MatchOption result ((n : ℕ) → n < 2 ^ 64 → line.now ≢ scalars_line n) (λ n. line.now ≡ scalars_line n) }
{
    read_decimal(line.strip_prefix(b"scalars ")?)
}

/// The step of the line, from 1 to 8.
pub fn read_step(line: &[u8]) -> Option<u8>
    ensures { MatchOption result
        ((d : ℕ) → 1 ≤ d → d ≤ 8 → line.now ≢ step_line d)
        (λ d. (1 ≤ d) × (d ≤ 8) × (line.now ≡ step_line d)) }
{
    let digits = line.strip_prefix(b"step ")?;
    let step = read_decimal(digits)?;
    if step == 0 || step > u64::from(MOST_STEP) {
        return None;
    }
    Some(step as u8)
}

// The weight of a block's line, and its accesses, each behind a space.
pub(crate) fn front_weight(line: &[u8]) -> Option<(u32, &[u8])>
    ensures { MatchOption result
        ((weight : ℕ) (rest : List ℕ) → 1 ≤ weight → weight < 2 ^ 32 → IsSpacedOff rest → line.now ≢ codes "block " ++ (decimal weight ++ rest))
        (λ found. (1 ≤ found.0) × IsSpacedOff found.1.now × (line.now ≡ codes "block " ++ (decimal found.0 ++ found.1.now))) }
{
    let fields = line.strip_prefix(b"block ")?;
    let (digits, rest) = front_field(fields);
    let weight = read_decimal(digits)?;
    if weight == 0 || weight > u64::from(u32::MAX) {
        return None;
    }
    Some((weight as u32, rest))
}

// The scalar behind the first space, one of so many, and what stands behind it.
pub(crate) fn front_scalar(bytes: &[u8], scalars: u8) -> Option<(u8, &[u8])>
    ensures { MatchOption result
        ((scalar : ℕ) (rest : List ℕ) → scalar < scalars → IsSpacedOff rest → bytes.now ≢ 32 ∷ (decimal scalar ++ rest))
        (λ found. (found.0 < scalars) × IsSpacedOff found.1.now × (bytes.now ≡ 32 ∷ (decimal found.0 ++ found.1.now))) }
{
    let fields = bytes.strip_prefix(b" ")?;
    let (digits, rest) = front_field(fields);
    let scalar = read_decimal(digits)?;
    if scalar >= u64::from(scalars) {
        return None;
    }
    Some((scalar as u8, rest))
}
