//! Blocks of accesses, which lie one behind another.
ghost use Rattle.std.specs.Prelude.{◌≡◌, ◌<◌, ◌^◌, ◌++◌, ◌∷◌, [], length, sum_by, MatchResult};
ghost use Rattle.lay_model.specs.Flat.{block_at, start_at};

use std::alloc::Global;
use std::marker::Model;
use word_base::NoMemory;

// How often a block counts, and how many accesses there are up to its end.
#[derive(Clone, Copy)]
struct BlockEnd {
    weight: u32,
    end: u32,
}

/// Blocks of accesses, of which each takes 8 bytes and its accesses a byte each. Contracts see the list of the blocks.
#[derive(Drop)]
pub struct Blocks {
    accesses: Vec<u8>,
    ends: Vec<BlockEnd>,
}

impl Model for Blocks {
    ghost use Rattle.std.specs.Prelude.{List, length};
    ghost use Rattle.lay_model.specs.Sequences.{Block};
    ghost use Rattle.lay_model.specs.Flat.{AreEnds, blocks_from};

    ghost Value = { List Block };

    ghost view = { λ b. blocks_from 0 b.ends.items b.accesses.items };

    ghost invariant = { λ b. AreEnds 0 b.ends.items (length b.accesses.items) };
}

impl Blocks {
    /// No block. It takes no memory.
    pub fn new(alloc: Global) -> Self
        ensures { result ≡ [] }
    {
        Blocks {
            accesses: Vec::new(alloc),
            ends: Vec::new(alloc),
        }
    }

    /// How many blocks there are.
    pub fn len(&self) -> usize
        ensures { result ≡ length self.now }
    {
        self.ends.len()
    }

    /// How many accesses all blocks have together.
    pub fn access_count(&self) -> u32
        ensures { result ≡ sum_by (λ b. length b.accesses) self.now }
    {
        match self.ends.last() {
            Some(last) => last.end,
            None => 0,
        }
    }

    /// The accesses of all blocks have a number of 32 bits, which callers cite.
    pub fn accesses_are_few(&self)
        ensures { sum_by (λ b. length b.accesses) self.now < 2 ^ 32 }
    {
        self.access_count();
    }

    /// How often the block of this number, from 0, counts.
    pub fn weight(&self, index: usize) -> u32
        requires { index < length self.now }
        ensures { result ≡ (block_at self.now index).weight }
    {
        self.ends[index].weight
    }

    /// The scalars that the block of this number, from 0, accesses.
    pub fn accesses(&self, index: usize) -> &[u8]
        requires { index < length self.now }
        ensures { result.now ≡ (block_at self.now index).accesses }
    {
        let start = start_of(&self.ends, index);
        &self.accesses[start..self.ends[index].end as usize]
    }

    /// Puts a block behind the others. Want of memory is also said where the accesses of all pass 32 bits; nothing is put there then.
    pub fn push(&mut self, weight: u32, accesses: &[u8]) -> Result<(), NoMemory>
        ensures { MatchResult result (λ _. self.new ≡ self.old ++ (record { weight = weight; accesses = accesses.now }) ∷ []) (λ _. self.new ≡ self.old) }
    {
        let size = self.accesses.len();
        self.accesses.extend_from_slice(accesses)?;
        match push_end(&mut self.ends, weight, self.accesses.len()) {
            Ok(()) => Ok(()),
            Err(fault) => {
                self.accesses.truncate(size);
                Err(fault)
            }
        }
    }
}

// Where the block of this number begins.
fn start_of(ends: &[BlockEnd], index: usize) -> usize
    requires { index < length ends.now }
    ensures { result ≡ start_at 0 ends.now index }
{
    if index == 0 {
        0
    } else {
        ends[index - 1].end as usize
    }
}

// Puts an end behind the others, unless it passes 32 bits.
fn push_end(ends: &mut Vec<BlockEnd>, weight: u32, end: usize) -> Result<(), NoMemory>
    ensures { MatchResult result (λ _. ends.new.items ≡ ends.old.items ++ (record { weight = weight; end = end }) ∷ []) (λ _. ends.new.items ≡ ends.old.items) }
{
    let end = u32::try_from(end).map_err(|_| NoMemory)?;
    ends.push(BlockEnd { weight, end })?;
    Ok(())
}
