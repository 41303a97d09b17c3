//! Questions about lists of scalars.
ghost use Rattle.std.specs.Prelude.{◌≡◌, ◌<◌, All, ℕ, nat_le, reverse, if◌then◌else◌};
ghost use Rattle.std.specs.List.{list_all};
ghost use Rattle.lay_cost.specs.Placements as placements;
ghost use Rattle.lay_cost.specs.Restricted.{in_bits};
ghost use Rattle.lay_tree.specs.Greedy as layouts;

pub(crate) fn has(list: &[u8], scalar: u8) -> bool
    ensures { result ≡ placements.has list.now scalar }
{
    list.iter().any(|other| *other == scalar)
}

pub(crate) fn is_first(scalar: u8, list: &[u8]) -> bool
    ensures { result ≡ layouts.is_first scalar list.now }
{
    match list.first() {
        Some(first) => *first == scalar,
        None => false,
    }
}

pub(crate) fn is_last(scalar: u8, list: &[u8]) -> bool
    ensures { result ≡ layouts.is_last scalar list.now }
{
    match list.last() {
        Some(last) => *last == scalar,
        None => false,
    }
}

/// A list whose last scalar is smaller than the first one is to be turned round.
pub(crate) fn ends_smaller(list: &[u8]) -> bool
    ensures { layouts.from_smaller_end list.now ≡ (if result then reverse list.now else list.now) }
{
    match (list.first(), list.last()) {
        (Some(first), Some(last)) => last < first,
        _ => false,
    }
}

pub(crate) fn is_smallest(scalar: u8, list: &[u8]) -> bool
    ensures { result ≡ layouts.is_smallest scalar list.now }
{
    has(list, scalar) && none_is_smaller(scalar, list)
}

fn none_is_smaller(scalar: u8, list: &[u8]) -> bool
    ensures { result ≡ list_all (nat_le scalar) list.now }
{
    list.iter().all(|other| scalar <= *other)
}

/// The set of some scalars, by their bits.
pub(crate) fn set_of(scalars: &[u8]) -> u64
    requires { All (λ s. s < 64) scalars.now }
    ensures { (s : ℕ) → s < 64 → in_bits result s ≡ placements.has scalars.now s }
{
    let mut set = 0;
    for scalar in scalars {
        set |= 1 << *scalar;
    }
    set
}
