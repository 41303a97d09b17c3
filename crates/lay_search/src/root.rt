//! The root of the tree.
ghost use Rattle.std.specs.Prelude.{◌≡◌, ◌<◌, ◌≤◌, IfOk};
ghost use Rattle.lay_model.specs.Arrangements.{Arranges};
ghost use Rattle.lay_cost.specs.Cost.{arranged_cost};
ghost use Rattle.lay_tree.specs.Tree.{root, with_scalar};
ghost use Rattle.lay_tree.specs.Search.{piece_end};
ghost use Rattle.lay_search.specs.Ends.{IsEnd};
ghost use Rattle.lay_search.specs.Roots.{IsRoot};

use crate::descent::Descent;
use crate::pieces::{end_of, string_of};
use lay_model::{Arrangement, Sequence};
use lay_node::{Kept, Position};
use lay_tree::PieceEnd;
use std::alloc::Global;
use word_base::NoMemory;

/// The root of the tree, with what its children need. A search finds it once, and each piece begins at a copy.
#[derive(Drop)]
pub struct Root {
    pub(crate) position: Position,
    pub(crate) kept: Kept,
}

impl Root {
    /// The root of a search over so many registers. It goes through the whole sequence.
    pub fn new(alloc: Global, seq: &Sequence, registers: u8) -> Result<Self, NoMemory>
        requires { 1 ≤ registers }
        ensures root { IfOk result (IsRoot seq.now) }
        ensures registers { IfOk result (λ root. root.position.registers ≡ registers) }
    {
        let mut position = Position::new(alloc, registers)?;
        let kept = position.begin(seq);
        Ok(Root { position, kept })
    }

    /// The piece of this number: the child with this scalar, and what is below it, with an arrangement that costs so much as the best
    /// one at first.
    pub fn run_piece(
        &self,
        alloc: Global,
        seq: &Sequence,
        quota: u32,
        number: u8,
        arrangement: &Arrangement,
        cost: u64,
    ) -> Result<PieceEnd, NoMemory>
        requires root { IsRoot seq.now self.now }
        requires number { number < seq.now.scalars }
        requires arranges { Arranges seq.now.scalars arrangement.now }
        requires cost { cost ≡ arranged_cost seq.now arrangement.now }
        ensures { IfOk result (λ end. IsEnd seq.now (piece_end self.now.position.registers seq.now quota arrangement.now (with_scalar root number)) end) }
    {
        let best = string_of(alloc, arrangement.lists())?;
        let position = self.position.copy(alloc)?;
        let mut descent = Descent::new(alloc, position, quota, best, cost);
        let ending = descent.visit_scalar(seq, self.kept, number)?;
        end_of(alloc, descent, ending)
    }
}
