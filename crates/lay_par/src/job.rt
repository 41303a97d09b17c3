//! What is to be searched.
ghost use Rattle.std.specs.Prelude.{◌≡◌, ◌≤◌};

use lay_model::Sequence;
use std::marker::Model;

/// An arrangement over so many registers, 1 at least, that costs least is wanted, with so many nodes in all at most. Contracts see the
/// sequence and the numbers.
#[derive(Drop)]
pub struct Job {
    sequence: Sequence,
    registers: u8,
    budget: u32,
}

impl Model for Job {
    ghost use Rattle.std.specs.Prelude.{◌≤◌};
    ghost use Rattle.lay_par.specs.Jobs.{Job};

    ghost Value = { Job };

    ghost view = { λ j. record { sequence = j.sequence; registers = j.registers; budget = j.budget } };

    ghost invariant = { λ j. 1 ≤ j.registers };
}

impl Job {
    /// The job of these. It takes no memory.
    pub fn new(sequence: Sequence, registers: u8, budget: u32) -> Self
        requires { 1 ≤ registers }
        ensures { result ≡ record { sequence = sequence; registers = registers; budget = budget } }
    {
        Job {
            sequence,
            registers,
            budget,
        }
    }

    pub fn sequence(&self) -> &Sequence
        ensures { result.now ≡ self.now.sequence }
    {
        &self.sequence
    }

    /// The sequence again. It takes no memory.
    pub fn into_sequence(self) -> Sequence
        ensures { result ≡ self.sequence }
    {
        self.sequence
    }

    /// How many registers, 1 at least.
    pub fn registers(&self) -> u8
        ensures registers { result ≡ self.now.registers }
        ensures some { 1 ≤ result }
    {
        self.registers
    }

    pub fn budget(&self) -> u32
        ensures { result ≡ self.now.budget }
    {
        self.budget
    }
}
