//! Access sequences.
ghost use Rattle.std.specs.Prelude.{◌≡◌, ◌≤◌, length, vec_len};
ghost use Rattle.lay_model.specs.Sequences.{IsSequence, IsBlock};

use crate::blocks::Blocks;
use crate::scalar_list::ScalarList;
use std::marker::Model;

/// How many scalars a sequence has at most.
pub const MOST_SCALARS: u8 = 64;

/// The greatest step.
pub const MOST_STEP: u8 = 8;

/// Accesses one behind another, between two cuts. Contracts see the weight and the list of the scalars.
#[derive(Drop)]
pub struct Block {
    weight: u32,
    accesses: ScalarList,
}

impl Model for Block {
    ghost use Rattle.lay_model.specs.Sequences.{Block, IsBlock};

    ghost Value = { Block };

    ghost view = { λ b. record { weight = b.weight; accesses = b.accesses } };

    ghost invariant = { λ b. IsBlock (record { weight = b.weight; accesses = b.accesses }) };
}

impl Block {
    /// A block that counts so often, with these accesses. It takes no memory.
    pub fn new(weight: u32, accesses: ScalarList) -> Self
        requires { IsBlock (record { weight = weight; accesses = accesses }) }
        ensures { result ≡ record { weight = weight; accesses = accesses } }
    {
        Block { weight, accesses }
    }

    /// How often it counts, 1 at least.
    pub fn weight(&self) -> u32
        ensures weight { result ≡ self.now.weight }
        ensures counts { 1 ≤ result }
    {
        self.weight
    }

    /// The scalars that are accessed, one at least.
    pub fn accesses(&self) -> &[u8]
        ensures accesses { result.now ≡ self.now.accesses }
        ensures some { 1 ≤ length result.now }
    {
        self.accesses.scalars()
    }
}

/// The accesses of a frame: how many scalars it has, at most 64; the step, 1 to 8, by which a move may be free beside one by 1; and the blocks. Weights times
/// numbers of accesses are at most 2^60 together, so no cost passes 64 bits. Contracts see the numbers and the list of the blocks.
#[derive(Drop)]
pub struct Sequence {
    scalars: u8,
    step: u8,
    blocks: Blocks,
}

impl Model for Sequence {
    ghost use Rattle.lay_model.specs.Sequences.{Sequence, IsSequence};

    ghost Value = { Sequence };

    ghost view = { λ s. record { scalars = s.scalars; step = s.step; blocks = s.blocks } };

    ghost invariant = { λ s. IsSequence (record { scalars = s.scalars; step = s.step; blocks = s.blocks }) };
}

impl Sequence {
    /// The sequence of these blocks. It takes no memory.
    pub fn new(scalars: u8, step: u8, blocks: Blocks) -> Self
        requires { IsSequence (record { scalars = scalars; step = step; blocks = blocks }) }
        ensures { result ≡ record { scalars = scalars; step = step; blocks = blocks } }
    {
        Sequence {
            scalars,
            step,
            blocks,
        }
    }

    /// How many scalars there are.
    pub fn scalars(&self) -> u8
        ensures scalars { result ≡ self.now.scalars }
        ensures sequence { IsSequence self.now }
    {
        self.scalars
    }

    /// The step, from 1 to 8.
    pub fn step(&self) -> u8
        ensures { result ≡ self.now.step }
    {
        self.step
    }

    /// The same accesses at another step, from 1 to 8.
    pub fn with_step(self, step: u8) -> Self
        requires from_one { 1 ≤ step }
        requires to_eight { step ≤ 8 }
        ensures { result ≡ record self { step = step } }
    {
        Sequence {
            scalars: self.scalars,
            step,
            blocks: self.blocks,
        }
    }

    pub fn blocks(&self) -> &Blocks
        ensures { result.now ≡ self.now.blocks }
    {
        &self.blocks
    }
}
