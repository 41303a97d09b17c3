//! What depends on the closed lists.
ghost use Rattle.std.specs.Prelude.{◌≡◌, ◌<◌, ◌≤◌, ℕ, ◌^◌, max, true, sum_by, slice_index, slice_set, IfOk, IfSome};
ghost use Rattle.std.specs.List.{range_with_len};
ghost use Rattle.lay_cost.specs.Restricted.{in_bits};
ghost use Rattle.lay_cost.specs.Weights.{AreWeights, weight_at};
ghost use Rattle.lay_tree.specs.Bound.{sum_of_pairs};
ghost use Rattle.lay_node.specs.Levels.{is_free, free_below, greatest_among, greatest_in_all, HasGreatest, SameOfOthers, beside_last};

use lay_cost::WeightTable;
use lay_model::Sequence;
use std::alloc::Global;
use word_base::NoMemory;

/// How often scalars outside the closed lists are neighbours, and of each that isn't placed, how often it is beside another one of
/// these at most.
#[derive(Drop)]
pub(crate) struct Level {
    pub(crate) weights: WeightTable,
    pub(crate) greatest: [u64; 64],
}

impl Level {
    /// With room for weights, of which none is known yet.
    pub(crate) fn new(alloc: Global) -> Result<Self, NoMemory> {
        Ok(Level {
            weights: WeightTable::zeros(alloc)?,
            greatest: [0; 64],
        })
    }

    /// The same numbers again.
    pub(crate) fn copy(&self, alloc: Global) -> Result<Self, NoMemory>
        ensures { IfOk result (λ level. level ≡ self.now) }
    {
        Ok(Level {
            weights: self.weights.copy(alloc)?,
            greatest: self.greatest,
        })
    }

    /// Anew, for other closed lists, behind which no scalar outside them is placed. The sum of the greatest weights is answered.
    pub(crate) fn refill(&mut self, seq: &Sequence, outside: u64, placed: &[bool; 64]) -> u64
        ensures weights { AreWeights seq.now (in_bits outside) self.new.weights }
        ensures greatest { HasGreatest self.new.weights self.new.greatest placed.now seq.now.scalars }
        ensures sum { result ≡ greatest_in_all self.new.weights (free_below placed.now seq.now.scalars) }
    {
        self.weights.refill(seq, outside);
        self.find_greatest(seq.scalars(), placed)
    }

    // The greatest weights of the scalars that aren't placed, and their sum.
    fn find_greatest(&mut self, scalars: u8, placed: &[bool; 64]) -> u64
        requires few { scalars ≤ 64 }
        requires fits { greatest_in_all self.old.weights (free_below placed.now scalars) < 2 ^ 63 }
        ensures weights { self.new.weights ≡ self.old.weights }
        ensures greatest { HasGreatest self.new.weights self.new.greatest placed.now scalars }
        ensures sum { result ≡ greatest_in_all self.new.weights (free_below placed.now scalars) }
    {
        let mut sum = 0;
        for scalar in 0..scalars {
            if !placed[usize::from(scalar)] {
                let greatest = self.greatest_of(scalar, scalars, placed);
                self.greatest[usize::from(scalar)] = greatest;
                sum += greatest;
            }
        }
        sum
    }

    // How often a scalar is beside another one at most that isn't placed.
    fn greatest_of(&self, scalar: u8, scalars: u8, placed: &[bool; 64]) -> u64
        requires few { scalars ≤ 64 }
        requires below { scalar < 64 }
        ensures { result ≡ greatest_among self.now.weights (free_below placed.now scalars) scalar }
    {
        let mut greatest = 0;
        for other in 0..scalars {
            if !placed[usize::from(other)] {
                greatest = larger(greatest, self.weights.at(scalar, other));
            }
        }
        greatest
    }

    /// How often two scalars are neighbours, over each two of them outside the closed lists.
    pub(crate) fn total(&self, scalars: u8) -> u64
        requires few { scalars ≤ 64 }
        requires fits { sum_of_pairs (weight_at self.now.weights) (range_with_len 0 scalars) < 2 ^ 63 }
        ensures { result ≡ sum_of_pairs (weight_at self.now.weights) (range_with_len 0 scalars) }
    {
        let mut total = 0;
        for high in 0..scalars {
            total += self.total_below(high);
        }
        total
    }

    fn total_below(&self, high: u8) -> u64
        requires few { high < 64 }
        requires fits { sum_by (λ low. weight_at self.now.weights low high) (range_with_len 0 high) < 2 ^ 63 }
        ensures { result ≡ sum_by (λ low. weight_at self.now.weights low high) (range_with_len 0 high) }
    {
        let mut total = 0;
        for low in 0..high {
            total += self.weights.at(low, high);
        }
        total
    }

    /// How often a scalar is beside the last one.
    pub(crate) fn beside(&self, last: Option<u8>, scalar: u8) -> u64
        requires last { IfSome last (λ s. s < 64) }
        requires scalar { scalar < 64 }
        ensures { result ≡ beside_last (weight_at self.now.weights) last scalar }
    {
        match last {
            Some(last) => self.weights.at(last, scalar),
            None => 0,
        }
    }

    /// How often a scalar is beside another one at most.
    pub(crate) fn greatest(&self, scalar: u8) -> u64
        requires { scalar < 64 }
        ensures { result ≡ slice_index self.now.greatest scalar }
    {
        self.greatest[usize::from(scalar)]
    }

    /// A scalar was placed: the greatest weights of the others, and their sum, which is answered.
    pub(crate) fn take_out(&mut self, scalar: u8, scalars: u8, placed: &[bool; 64]) -> u64
        requires few { scalars ≤ 64 }
        requires below { scalar < 64 }
        requires greatest { (s : ℕ) → s < scalars → is_free placed.now s ≡ true → slice_index self.old.greatest s ≡ max (greatest_among self.old.weights (free_below placed.now scalars) s) (weight_at self.old.weights s scalar) }
        requires fits { greatest_in_all self.old.weights (free_below placed.now scalars) < 2 ^ 63 }
        ensures weights { self.new.weights ≡ self.old.weights }
        ensures greatest { HasGreatest self.new.weights self.new.greatest placed.now scalars }
        ensures others { SameOfOthers self.old.greatest self.new.greatest placed.now scalars }
        ensures sum { result ≡ greatest_in_all self.new.weights (free_below placed.now scalars) }
    {
        let mut sum = 0;
        for other in 0..scalars {
            if !placed[usize::from(other)] {
                sum += self.without(other, scalar, scalars, placed);
            }
        }
        sum
    }

    // The greatest weight of a scalar, when another one was placed: it has to be found anew only where the two weighed the most.
    fn without(&mut self, scalar: u8, other: u8, scalars: u8, placed: &[bool; 64]) -> u64
        requires few { scalars ≤ 64 }
        requires below { scalar < 64 }
        requires other { other < 64 }
        requires greatest { slice_index self.old.greatest scalar ≡ max (greatest_among self.old.weights (free_below placed.now scalars) scalar) (weight_at self.old.weights scalar other) }
        ensures weights { self.new.weights ≡ self.old.weights }
        ensures greatest { result ≡ greatest_among self.old.weights (free_below placed.now scalars) scalar }
        ensures kept { self.new.greatest ≡ slice_set self.old.greatest scalar result }
    {
        let place = usize::from(scalar);
        let weight = self.weights.at(scalar, other);
        if weight > 0 && weight == self.greatest[place] {
            self.greatest[place] = self.greatest_of(scalar, scalars, placed);
        }
        self.greatest[place]
    }

    /// A scalar is no longer placed: the greatest weights of the others.
    pub(crate) fn put_back(&mut self, scalar: u8, scalars: u8, placed: &[bool; 64])
        requires few { scalars ≤ 64 }
        requires below { scalar < 64 }
        ensures weights { self.new.weights ≡ self.old.weights }
        ensures greatest { (s : ℕ) → s < scalars → is_free placed.now s ≡ true → slice_index self.new.greatest s ≡ max (slice_index self.old.greatest s) (weight_at self.old.weights s scalar) }
        ensures others { SameOfOthers self.old.greatest self.new.greatest placed.now scalars }
    {
        for other in 0..scalars {
            let place = usize::from(other);
            if !placed[place] {
                self.greatest[place] = larger(self.greatest[place], self.weights.at(other, scalar));
            }
        }
    }
}

// The larger one of two numbers.
fn larger(a: u64, b: u64) -> u64
    ensures { result ≡ max a b }
{
    if a < b { b } else { a }
}
