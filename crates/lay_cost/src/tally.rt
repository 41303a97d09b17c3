//! What is kept along a block.
ghost use Rattle.std.specs.Prelude.{◌≡◌, ◌<◌, ◌≤◌, ◌+◌, ◌^◌, ℕ, List, slice_set, if◌then◌else◌};
ghost use Rattle.std.specs.Int.{abs_diff};
ghost use Rattle.lay_cost.specs.Cost.{with_step_load};
ghost use Rattle.lay_cost.specs.Memory.{IsNear, IsSpareKept, last_of, not_loaded_anywhere, tally_of, tally_behind_place};

use crate::places::{Place, SPARE};

/// The last offset of a register that isn't loaded: it is further from each offset than any step.
const NOT_LOADED: u8 = 255;

/// The last offset of each register. It stands apart from the tally, which a compiler keeps out of memory then.
#[derive(Drop)]
pub(crate) struct LastOffsets {
    offsets: [u8; 65],
}

impl LastOffsets {
    pub(crate) fn none() -> Self
        ensures { result.offsets ≡ not_loaded_anywhere }
    {
        let mut offsets = [NOT_LOADED; 65];
        offsets[usize::from(SPARE)] = 0;
        LastOffsets { offsets }
    }

    // A register goes to a place. How far that is is answered.
    fn go_to(&mut self, place: Place) -> u8
        requires { place.register ≤ 64 }
        ensures far { result ≡ abs_diff (last_of self.old.offsets place.register) place.offset }
        ensures gone { self.new.offsets ≡ slice_set self.old.offsets place.register place.offset }
    {
        let register = usize::from(place.register);
        let far = self.offsets[register].abs_diff(place.offset);
        self.offsets[register] = place.offset;
        far
    }
}

/// How many moves were further than 1, and how many of them as far as a step above 1. A first access is such a move: its register comes
/// from afar.
#[derive(Drop)]
pub(crate) struct Tally {
    far: u64,
    by_step: u64,
}

impl Tally {
    pub(crate) fn no_access() -> Self
        ensures { result ≡ record { far = 0; by_step = 0 } }
    {
        Tally { far: 0, by_step: 0 }
    }

    /// One more access at a step of 1. That of a scalar without a place costs nothing.
    pub(crate) fn add_at_one(&mut self, last: &mut LastOffsets, place: Place)
        requires place { IsNear place }
        requires spare { IsSpareKept last.old.offsets }
        requires within { self.old.by_step ≤ self.old.far }
        requires room { self.old.far < 2 ^ 63 }
        ensures tally { tally_of last.new.offsets self.new ≡ tally_behind_place 1 (tally_of last.old.offsets self.old) place }
        ensures spare { IsSpareKept last.new.offsets }
        ensures within { self.new.by_step ≤ self.new.far }
        ensures few { self.new.far ≤ self.old.far + 1 }
    {
        let far = last.go_to(place);
        self.far += count(far > 1);
    }

    /// And at a step above 1.
    pub(crate) fn add_at_step(&mut self, last: &mut LastOffsets, step: u8, place: Place)
        requires place { IsNear place }
        requires step { 1 < step }
        requires short { step ≤ 8 }
        requires spare { IsSpareKept last.old.offsets }
        requires within { self.old.by_step ≤ self.old.far }
        requires room { self.old.far < 2 ^ 63 }
        ensures tally { tally_of last.new.offsets self.new ≡ tally_behind_place step (tally_of last.old.offsets self.old) place }
        ensures spare { IsSpareKept last.new.offsets }
        ensures within { self.new.by_step ≤ self.new.far }
        ensures few { self.new.far ≤ self.old.far + 1 }
    {
        let far = last.go_to(place);
        self.far += count(far > 1);
        self.by_step += count(far == step);
    }

    /// Moves by the step are free, but the step is loaded for them.
    pub(crate) fn cost(&self) -> u64
        requires within { self.now.by_step ≤ self.now.far }
        requires room { self.now.far < 2 ^ 63 }
        ensures { (last : List ℕ) → result ≡ with_step_load (tally_of last self.now) }
    {
        self.far - self.by_step + count(self.by_step > 0)
    }
}

fn count(happens: bool) -> u64
    ensures { result ≡ (if happens then 1 else 0) }
{
    u64::from(happens)
}
