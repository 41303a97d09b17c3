//! The lines of lists, read one by one.
ghost use Rattle.std.specs.Prelude.{◌≡◌, ◌≢◌, ◌↔◌, ◌<◌, ◌≤◌, ◌^◌, ◌==◌, ◌∷◌, ◌++◌, ℕ, List, length, count_by, All, MatchOption, IfOk, IsTrue, decimal};
ghost use Rattle.std.specs.List.{concat, AllByRecursion};
ghost use Rattle.lay_model.specs.Arrangements.{Arranges};
ghost use Rattle.lay_lines.specs.BlockText.{spaced};
ghost use Rattle.text_base.specs.Fields.{IsSpacedOff};
ghost use Rattle.lay_lines.specs.ListText.{list_line, Spells, ListsSo};

use lay_model::{MOST_SCALARS, ScalarList};
use std::alloc::Global;
use text_base::{front_field, read_decimal, read_hex};
use word_base::NoMemory;

// The number behind the first space, and what stands behind it.
fn front_number(bytes: &[u8]) -> Option<(u64, &[u8])>
    ensures { MatchOption result
        ((n : ℕ) (rest : List ℕ) → n < 2 ^ 64 → IsSpacedOff rest → bytes.now ≢ 32 ∷ (decimal n ++ rest))
        (λ found. IsSpacedOff found.1.now × (bytes.now ≡ 32 ∷ (decimal found.0 ++ found.1.now))) }
{
    let fields = bytes.strip_prefix(b" ")?;
    let (digits, rest) = front_field(fields);
    let number = read_decimal(digits)?;
    Some((number, rest))
}

// The numbers of a line, each behind a space. Those that no scalar has are kept as 255.
fn read_numbers(alloc: Global, bytes: &[u8]) -> Result<Option<Vec<u8>>, NoMemory>
    requires { IsSpacedOff bytes.now }
    ensures { IfOk result (λ found. MatchOption found
        ((all : List ℕ) → AllByRecursion (λ n. n < 2 ^ 64) all → bytes.now ≢ spaced all)
        (λ kept. Spells bytes.now kept.items)) }
{
    let mut numbers = Vec::new(alloc);
    let mut rest = bytes;
    while let Some((number, after)) = front_number(rest) {
        numbers.push(number.min(255) as u8)?;
        rest = after;
    }
    if rest.is_empty() {
        Ok(Some(numbers))
    } else {
        Ok(None)
    }
}

/// The base address and the numbers of the list that the line is of.
pub fn read_list(alloc: Global, line: &[u8]) -> Result<Option<(u16, ScalarList)>, NoMemory>
    ensures { IfOk result (λ found. MatchOption found
        ((base : ℕ) (all : List ℕ) → base < 2 ^ 16 → AllByRecursion (λ n. n < 2 ^ 64) all → line.now ≢ list_line base all)
        (λ list. ListsSo line.now list.0 list.1)) }
{
    let Some(fields) = line.strip_prefix(b"list ") else {
        return Ok(None);
    };
    let (digits, rest) = front_field(fields);
    let Some(base) = read_hex(digits) else {
        return Ok(None);
    };
    let Some(numbers) = read_numbers(alloc, rest)? else {
        return Ok(None);
    };
    Ok(Some((base, ScalarList::new(numbers))))
}

// The scalars of all lists.
fn all_scalars(alloc: Global, lists: &[ScalarList]) -> Result<Vec<u8>, NoMemory>
    ensures { IfOk result (λ all. all.items ≡ concat lists.now) }
{
    let mut all = Vec::new(alloc);
    for list in lists {
        all.extend_from_slice(list.scalars())?;
    }
    Ok(all)
}

// How often a scalar stands there.
fn times(all: &[u8], scalar: u8) -> usize
    ensures { result ≡ count_by (λ s. s == scalar) all.now }
{
    all.iter().filter(|s| **s == scalar).count()
}

// Whether each of so many scalars stands once.
fn stand_once(all: &[u8], scalars: u8) -> bool
    ensures { IsTrue result ↔ ((scalar : ℕ) → scalar < scalars → count_by (λ s. s == scalar) all.now ≡ 1) }
{
    for scalar in 0..scalars {
        if times(all, scalar) != 1 {
            return false;
        }
    }
    true
}

// Whether no list is empty.
fn are_filled(lists: &[ScalarList]) -> bool
    ensures { IsTrue result ↔ All (λ list. 1 ≤ length list) lists.now }
{
    lists.iter().all(|list| !list.scalars().is_empty())
}

// Whether the lists, which hold these scalars together, arrange so many.
fn is_arrangement(lists: &[ScalarList], all: &[u8], scalars: u8) -> bool
    requires { all.now ≡ concat lists.now }
    ensures { IsTrue result ↔ Arranges scalars lists.now }
{
    if scalars > MOST_SCALARS {
        return false;
    }
    let count = all.len();
    if count != usize::from(scalars) {
        return false;
    }
    let filled = are_filled(lists);
    if !filled {
        return false;
    }
    stand_once(all, scalars)
}

/// Whether the lists arrange so many scalars.
pub fn is_arranged(alloc: Global, lists: &[ScalarList], scalars: u8) -> Result<bool, NoMemory>
    ensures { IfOk result (λ found. IsTrue found ↔ Arranges scalars lists.now) }
{
    let all = all_scalars(alloc, lists)?;
    Ok(is_arrangement(lists, &all, scalars))
}
