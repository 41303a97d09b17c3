//! Replays of logs.
ghost use Rattle.std.specs.Prelude.{◌≡◌, ◌≤◌, IfOk};
ghost use Rattle.lay_tree.specs.Replays as tree;
ghost use Rattle.lay_replay.specs.LogVerdicts.{verdict_of};

use crate::verdict::LogVerdict;
use crate::walk::Walk;
use lay_model::Sequence;
use lay_tree::Mark;
use std::alloc::Global;
use std::marker::Model;
use word_base::NoMemory;

/// Room for the replay of logs over a number of registers. Contracts see that number.
#[derive(Drop)]
pub struct LogReplay {
    walk: Walk,
}

impl Model for LogReplay {
    ghost use Rattle.std.specs.Prelude.{ℕ, ◌≤◌};
    ghost use Rattle.lay_node.specs.Positions.{HasLevels};

    ghost Value = { ℕ };

    ghost view = { λ r. r.walk.position.registers };

    ghost invariant = { λ r. (1 ≤ r.walk.position.registers) × HasLevels r.walk.position };
}

impl LogReplay {
    /// With room for logs over so many registers, 1 at least.
    pub fn new(alloc: Global, registers: u8) -> Result<Self, NoMemory>
        requires { 1 ≤ registers }
        ensures { IfOk result (λ r. r ≡ registers) }
    {
        Ok(LogReplay {
            walk: Walk::new(alloc, registers)?,
        })
    }

    /// Goes down the tree of the sequence by the marks, each node before its children, and says whether they fit: a node marked `Branched` isn't complete, and
    /// all its children follow; one marked `Closed` has a bound of at least the cost; and no mark is missing or left over. Where they fit, no layout costs less.
    /// Else it names the first mark that doesn't. It takes no memory, and each replay begins at the root anew.
    pub fn replay(&mut self, seq: &Sequence, cost: u64, marks: &[Mark]) -> LogVerdict
        ensures verdict { result ≡ verdict_of (tree.replay self.old seq.now cost marks.now) }
        ensures again { self.new ≡ self.old }
    {
        match self.walk.replay(seq, cost, marks) {
            Ok(()) => LogVerdict::Fits,
            Err(fault) => fault.verdict(),
        }
    }
}
