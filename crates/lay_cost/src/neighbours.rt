//! How often scalars are neighbours.
ghost use Rattle.std.specs.Prelude.{◌≡◌, ◌<◌, ◌≤◌, ◌+◌, ◌*◌, ◌^◌, filter, length, replicate, All, IfOk, IfSome, if◌then◌else◌};
ghost use Rattle.std.specs.List.{list_any};
ghost use Rattle.lay_cost.specs.Restricted as sets;
ghost use Rattle.lay_cost.specs.Restricted.{in_bits};
ghost use Rattle.lay_cost.specs.Weights.{AreWeights, weight_at};
ghost use Rattle.lay_cost.specs.Memory.{HasPair, HasNext, HasBlock, HasCorner, AreSmall};

use lay_model::{MOST_SCALARS, Sequence};
use std::alloc::Global;
use std::marker::Model;
use word_base::NoMemory;

const TABLE: usize = 4096;

/// How often each two scalars are neighbours. Contracts see the numbers, row by row.
#[derive(Drop)]
pub struct WeightTable {
    weights: Vec<u64>,
    /// Of how many scalars weights may be above 0. The others needn't be cleared.
    scalars: u8,
}

impl Model for WeightTable {
    ghost use Rattle.std.specs.Prelude.{List, ℕ};
    ghost use Rattle.lay_cost.specs.Memory.{HasCorner};

    ghost Value = { List ℕ };

    ghost view = { λ t. t.weights.items };

    ghost invariant = { λ t. HasCorner t.scalars t.weights.items };
}

/// The table of a sequence and of a set of its scalars, given by their bits.
pub fn weights(alloc: Global, seq: &Sequence, set: u64) -> Result<WeightTable, NoMemory>
    ensures { IfOk result (λ table. AreWeights seq.now (in_bits set) table) }
{
    let mut table = WeightTable::zeros(alloc)?;
    table.refill(seq, set);
    Ok(table)
}

impl WeightTable {
    /// The table in which each weight is 0.
    pub fn zeros(alloc: Global) -> Result<WeightTable, NoMemory>
        ensures { IfOk result (λ table. table ≡ replicate 4096 0) }
    {
        Ok(WeightTable {
            weights: vec![in alloc; 0; TABLE]?,
            scalars: 0,
        })
    }

    /// The weight of two scalars, in either order. It is 0 for a scalar and itself, and where one isn't in the set.
    pub fn at(&self, a: u8, b: u8) -> u64
        requires a_below { a < 64 }
        requires b_below { b < 64 }
        ensures { result ≡ weight_at self.now a b }
    {
        self.weights[place(a, b)]
    }

    /// The same numbers again, in a table of its own.
    pub fn copy(&self, alloc: Global) -> Result<WeightTable, NoMemory>
        ensures { IfOk result (λ table. table ≡ self.now) }
    {
        Ok(WeightTable {
            weights: self.weights.to_vec(alloc)?,
            scalars: self.scalars,
        })
    }

    /// Makes it the table of this sequence and set. It takes no memory.
    pub fn refill(&mut self, seq: &Sequence, set: u64)
        ensures { AreWeights seq.now (in_bits set) self.new }
    {
        clear(&mut self.weights, self.scalars);
        add_blocks(&mut self.weights, seq, set);
        self.scalars = seq.scalars();
    }
}

/// The weights of the blocks that hold a scalar of a set, which is given by its bits.
pub fn loads(seq: &Sequence, set: u64) -> u64
    ensures { result ≡ sets.loads seq.now (in_bits set) }
{
    let few = seq.scalars() <= MOST_SCALARS;
    prove!(few);
    let mut loads = 0;
    let blocks = seq.blocks();
    for index in 0..blocks.len() {
        loads += load(blocks.weight(index), blocks.accesses(index), set);
    }
    loads
}

// What a block adds to them.
fn load(weight: u32, accesses: &[u8], set: u64) -> u64
    requires { All (λ s. s < 64) accesses.now }
    ensures load { result ≡ (if list_any (in_bits set) accesses.now then weight else 0) }
    ensures few { result ≤ weight * length accesses.now }
{
    if holds_some(accesses, set) {
        u64::from(weight)
    } else {
        0
    }
}

fn holds_some(accesses: &[u8], set: u64) -> bool
    requires { All (λ s. s < 64) accesses.now }
    ensures { result ≡ list_any (in_bits set) accesses.now }
{
    accesses.iter().any(|scalar| is_in(set, *scalar))
}

fn is_in(set: u64, scalar: u8) -> bool
    requires { scalar < 64 }
    ensures { result ≡ in_bits set scalar }
{
    (set >> scalar) % 2 == 1
}

// Where the weight of two scalars stands.
fn place(a: u8, b: u8) -> usize
    ensures { result ≡ a * 64 + b }
{
    usize::from(a) * 64 + usize::from(b)
}

// No weight is above 0 then, where only those of so many scalars were.
fn clear(weights: &mut [u64], scalars: u8)
    requires { HasCorner scalars weights.old }
    ensures { HasCorner 0 weights.new }
{
    for row in 0..scalars {
        weights[place(row, 0)..place(row, scalars)].fill(0);
    }
}

// The neighbours of all blocks.
fn add_blocks(weights: &mut [u64], seq: &Sequence, set: u64)
    requires { HasCorner 0 weights.old }
    ensures weights { AreWeights seq.now (in_bits set) weights.new }
    ensures corner { HasCorner seq.now.scalars weights.new }
{
    let few = seq.scalars() <= MOST_SCALARS;
    prove!(few);
    let blocks = seq.blocks();
    for index in 0..blocks.len() {
        add_block(
            weights,
            u64::from(blocks.weight(index)),
            blocks.accesses(index),
            set,
        );
    }
}

// The neighbours of one block.
fn add_block(weights: &mut [u64], weight: u64, accesses: &[u8], set: u64)
    requires size { length weights.old ≡ 4096 }
    requires scalars { All (λ s. s < 64) accesses.now }
    requires room { AreSmall weights.old (2 ^ 62) }
    requires counted { weight * length accesses.now ≤ 2 ^ 62 }
    ensures { HasBlock weights.old weights.new (filter (in_bits set) accesses.now) weight }
{
    let mut last = None;
    for scalar in accesses {
        if is_in(set, *scalar) {
            add_next(weights, last, *scalar, weight);
            last = Some(*scalar);
        }
    }
}

// One access behind a last one.
fn add_next(weights: &mut [u64], last: Option<u8>, scalar: u8, weight: u64)
    requires size { length weights.old ≡ 4096 }
    requires last_below { IfSome last (λ s. s < 64) }
    requires scalar_below { scalar < 64 }
    requires room { AreSmall weights.old (2 ^ 63) }
    requires counted { weight < 2 ^ 63 }
    ensures { HasNext weights.old weights.new last scalar weight }
{
    if let Some(before) = last {
        add_pair(weights, before, scalar, weight);
    }
}

// Two neighbours.
fn add_pair(weights: &mut [u64], a: u8, b: u8, weight: u64)
    requires size { length weights.old ≡ 4096 }
    requires a_below { a < 64 }
    requires b_below { b < 64 }
    requires room { AreSmall weights.old (2 ^ 63) }
    requires counted { weight < 2 ^ 63 }
    ensures { HasPair weights.old weights.new a b weight }
{
    if a != b {
        weights[place(a, b)] += weight;
        weights[place(b, a)] += weight;
    }
}
