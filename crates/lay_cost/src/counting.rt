//! What an arrangement costs, and lists of some of the scalars.
ghost use Rattle.std.specs.Prelude.{◌≡◌, ◌<◌, ◌≤◌, filter, length, All};
ghost use Rattle.lay_model.specs.Arrangements.{Arranges};
ghost use Rattle.lay_model.specs.Sequences.{IsSequence};
ghost use Rattle.lay_cost.specs.Cost as costs;
ghost use Rattle.lay_cost.specs.Cost.{arranged_cost, cost_of};
ghost use Rattle.lay_cost.specs.Memory.{placement_in, is_placed, AreNear};
ghost use Rattle.lay_cost.specs.Parts.{IsString, lists_of, part_cost_of};
ghost use Rattle.lay_cost.specs.Restricted.{restricted};

use crate::places::Places;
use crate::tally::{LastOffsets, Tally};
use lay_model::{Arrangement, MOST_SCALARS, Sequence};

/// What closes a list in a string of scalars.
pub const CLOSE: u8 = 255;

/// What an arrangement of the scalars of a sequence costs.
pub fn cost(seq: &Sequence, arr: &Arrangement) -> u64
    requires { Arranges seq.now.scalars arr.now }
    ensures { result ≡ arranged_cost seq.now arr.now }
{
    let mut places = Places::none();
    for list in arr.lists() {
        places.push_list(list.scalars());
    }
    cost_over(seq, &places)
}

/// What the lists of a string of scalars cost over the accesses of these scalars alone. `CLOSE` closes a list. It takes no memory.
pub fn part_cost(seq: &Sequence, node: &[u8]) -> u64
    requires { IsString seq.now.scalars node.now }
    ensures { result ≡ part_cost_of seq.now (lists_of node.now) }
{
    let few = seq.scalars() <= MOST_SCALARS;
    prove!(few);
    let mut places = Places::none();
    for sign in node {
        if *sign == CLOSE {
            places.close();
        } else {
            places.push(*sign);
        }
    }
    cost_over(seq, &places)
}

// What the scalars that have places cost.
fn cost_over(seq: &Sequence, places: &Places) -> u64
    requires { AreNear places.now.places }
    ensures cost { result ≡ cost_of (restricted seq.now (is_placed places.now.places)) (placement_in places.now.places) }
    ensures sequence { IsSequence seq.now }
{
    let few = seq.scalars() <= MOST_SCALARS;
    prove!(few);
    let step = seq.step();
    let mut cost = 0;
    let blocks = seq.blocks();
    for index in 0..blocks.len() {
        cost += u64::from(blocks.weight(index)) * block_cost(step, places, blocks.accesses(index));
    }
    cost
}

// What they cost in one block.
fn block_cost(step: u8, places: &Places, accesses: &[u8]) -> u64
    requires step { 1 ≤ step }
    requires short { step ≤ 8 }
    requires near { AreNear places.now.places }
    requires scalars { All (λ s. s < 64) accesses.now }
    ensures cost { result ≡ costs.block_cost step (placement_in places.now.places) (filter (is_placed places.now.places) accesses.now) }
    ensures few { result ≤ length accesses.now }
{
    if step > 1 {
        cost_at_step(step, places, accesses)
    } else {
        cost_at_one(places, accesses)
    }
}

// At a step of 1: a loop of its own, since no move has to be held against the step.
fn cost_at_one(places: &Places, accesses: &[u8]) -> u64
    requires near { AreNear places.now.places }
    requires scalars { All (λ s. s < 64) accesses.now }
    ensures { result ≡ costs.block_cost 1 (placement_in places.now.places) (filter (is_placed places.now.places) accesses.now) }
{
    let mut last = LastOffsets::none();
    let mut tally = Tally::no_access();
    for scalar in accesses {
        tally.add_at_one(&mut last, places.get(*scalar));
    }
    tally.cost()
}

// At a step above 1.
fn cost_at_step(step: u8, places: &Places, accesses: &[u8]) -> u64
    requires step { 1 < step }
    requires short { step ≤ 8 }
    requires near { AreNear places.now.places }
    requires scalars { All (λ s. s < 64) accesses.now }
    ensures { result ≡ costs.block_cost step (placement_in places.now.places) (filter (is_placed places.now.places) accesses.now) }
{
    let mut last = LastOffsets::none();
    let mut tally = Tally::no_access();
    for scalar in accesses {
        tally.add_at_step(&mut last, step, places.get(*scalar));
    }
    tally.cost()
}
