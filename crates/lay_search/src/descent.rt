//! The way down the tree and up again.
ghost use Rattle.std.specs.Prelude.{◌≡◌, ◌==◌, ◌<◌, false, true, ◌++◌, ◌∷◌, [], length, IfOk};
ghost use Rattle.std.specs.List.{concat};
ghost use Rattle.lay_cost.specs.Placements.{has};
ghost use Rattle.lay_cost.specs.Parts.{node_lists};
ghost use Rattle.lay_tree.specs.declared.answer.Mark.TheVariants.{Branched};
ghost use Rattle.lay_tree.specs.Tree.{is_complete, is_empty, has_closes_left, with_scalar, with_close, children};
ghost use Rattle.lay_tree.specs.Bound.{bound};
ghost use Rattle.lay_tree.specs.Search.{reaches};
ghost use Rattle.lay_node.specs.Numbers.{kept_in, kept_at, kept_found, needs_weights};
ghost use Rattle.lay_node.specs.Positions.{here, greatest_needed, IsAt, IsAtWith, Enters, Weighs};
ghost use Rattle.lay_search.specs.Descents.{HasBest, Visits, VisitsBelow, Writes, Completes, IsClosed, Offers, IsNew, is_finished};

use lay_model::Sequence;
use lay_node::{Kept, Position};
use lay_tree::Mark;
use std::alloc::Global;
use word_base::NoMemory;

/// Whether all nodes were visited.
#[derive(Clone, Copy)]
pub(crate) enum Ending {
    Finished,
    /// As many marks are written as may be, and nodes are left.
    OutOfMarks,
}

impl Ending {
    pub(crate) fn is_finished(self) -> bool
        ensures { result ≡ is_finished self }
    {
        match self {
            Ending::Finished => true,
            Ending::OutOfMarks => false,
        }
    }
}

/// Where a search is, how many marks it may write, the best layout so far, and the marks.
#[derive(Drop)]
pub(crate) struct Descent {
    pub(crate) position: Position,
    pub(crate) quota: usize,
    pub(crate) best: Vec<u8>,
    pub(crate) cost: u64,
    pub(crate) marks: Vec<Mark>,
}

impl Descent {
    /// From a place in the tree, with a best layout, given as a string, and its cost.
    pub(crate) fn new(
        alloc: Global,
        position: Position,
        quota: u32,
        best: Vec<u8>,
        cost: u64,
    ) -> Self
        ensures { IsNew position quota best.items cost result }
    {
        Descent {
            position,
            quota: quota as usize,
            best,
            cost,
            marks: Vec::new(alloc),
        }
    }

    fn is_full(&self) -> bool
        ensures { result ≡ (length self.now.marks.items == self.now.quota) }
    {
        self.marks.len() == self.quota
    }

    // The children of a node, and what is below them.
    #[cycle(descent)]
    fn expand(&mut self, seq: &Sequence, kept: Kept) -> Result<Ending, NoMemory>
        requires place { IsAt seq.now self.old.position }
        requires best { HasBest seq.now self.old }
        requires kept { kept ≡ kept_in self.old.position.registers seq.now (here self.old.position) }
        requires incomplete { is_complete seq.now (here self.old.position) ≡ false }
        ensures { IfOk result (λ ending. Visits seq.now (children self.old.position.registers seq.now (here self.old.position)) self.old self.new ending) }
    {
        for scalar in 0..seq.scalars() {
            if !self.position.is_placed(scalar) {
                match self.visit_scalar(seq, kept, scalar)? {
                    Ending::Finished => {}
                    Ending::OutOfMarks => return Ok(Ending::OutOfMarks),
                }
            }
        }
        if self.position.closes_next(kept) {
            self.visit_close(seq, kept)
        } else {
            Ok(Ending::Finished)
        }
    }

    /// The child with one more scalar, and what is below it.
    #[cycle(descent)]
    pub(crate) fn visit_scalar(
        &mut self,
        seq: &Sequence,
        kept: Kept,
        scalar: u8,
    ) -> Result<Ending, NoMemory>
        requires place { IsAt seq.now self.old.position }
        requires best { HasBest seq.now self.old }
        requires kept { kept ≡ kept_in self.old.position.registers seq.now (here self.old.position) }
        requires scalar { scalar < seq.now.scalars }
        requires unplaced { has (concat (node_lists (here self.old.position))) scalar ≡ false }
        ensures { IfOk result (λ ending. Visits seq.now (with_scalar (here self.old.position) scalar ∷ []) self.old self.new ending) }
    {
        if self.is_full() {
            return Ok(Ending::OutOfMarks);
        }
        let child = self.position.child_of(seq, kept, scalar);
        if child.is_complete() {
            self.complete(seq, child, scalar)?;
            self.close_node()
        } else if self.position.reaches(seq, child, self.cost) {
            self.close_node()
        } else {
            self.branch(seq, child, scalar)
        }
    }

    #[cycle(descent)]
    fn branch(&mut self, seq: &Sequence, child: Kept, scalar: u8) -> Result<Ending, NoMemory>
        requires place { IsAt seq.now self.old.position }
        requires best { HasBest seq.now self.old }
        requires scalar { scalar < seq.now.scalars }
        requires unplaced { has (concat (node_lists (here self.old.position))) scalar ≡ false }
        requires child { child ≡ kept_at self.old.position.registers seq.now (with_scalar (here self.old.position) scalar) }
        requires room { length self.old.marks.items < self.old.quota }
        requires incomplete { is_complete seq.now (with_scalar (here self.old.position) scalar) ≡ false }
        requires below { reaches (bound self.old.position.registers seq.now (with_scalar (here self.old.position) scalar)) self.old.cost ≡ false }
        ensures { IfOk result (λ ending. Visits seq.now (with_scalar (here self.old.position) scalar ∷ []) self.old self.new ending) }
    {
        let kept = self.enter(seq, child, scalar)?;
        match self.expand(seq, kept)? {
            Ending::Finished => {
                self.position.leave(seq, child, scalar);
                Ok(Ending::Finished)
            }
            Ending::OutOfMarks => Ok(Ending::OutOfMarks),
        }
    }

    // The child whose open list is closed, and what is below it.
    #[cycle(descent)]
    fn visit_close(&mut self, seq: &Sequence, kept: Kept) -> Result<Ending, NoMemory>
        requires place { IsAt seq.now self.old.position }
        requires best { HasBest seq.now self.old }
        requires kept { kept ≡ kept_in self.old.position.registers seq.now (here self.old.position) }
        requires some { is_empty (here self.old.position).open_list ≡ false }
        requires left { has_closes_left self.old.position.registers (here self.old.position) ≡ true }
        requires incomplete { is_complete seq.now (here self.old.position) ≡ false }
        ensures { IfOk result (λ ending. Visits seq.now (with_close (here self.old.position) ∷ []) self.old self.new ending) }
    {
        if self.is_full() {
            return Ok(Ending::OutOfMarks);
        }
        let outside = self.position.outside();
        let child = self.position.close_list(seq, kept);
        match self.visit_closed(seq, child)? {
            Ending::Finished => {
                self.position.reopen(outside);
                Ok(Ending::Finished)
            }
            Ending::OutOfMarks => Ok(Ending::OutOfMarks),
        }
    }

    #[cycle(descent)]
    fn visit_closed(&mut self, seq: &Sequence, child: Kept) -> Result<Ending, NoMemory>
        requires place { IsAtWith (greatest_needed seq.now self.old.position) (greatest_needed seq.now self.old.position) seq.now self.old.position }
        requires best { HasBest seq.now self.old }
        requires child { child ≡ kept_found (greatest_needed seq.now self.old.position) (greatest_needed seq.now self.old.position) seq.now (here self.old.position) }
        requires none { (here self.old.position).open_list ≡ [] }
        requires room { length self.old.marks.items < self.old.quota }
        requires incomplete { is_complete seq.now (here self.old.position) ≡ false }
        ensures { IfOk result (λ ending. VisitsBelow (length (here self.old.position).closed) seq.now (here self.old.position ∷ []) self.old self.new ending) }
    {
        if self.position.reaches(seq, child, self.cost) {
            self.close_node()
        } else {
            let kept = self.enter_closed(seq, child)?;
            self.expand(seq, kept)
        }
    }

    fn close_node(&mut self) -> Result<Ending, NoMemory>
        ensures { IfOk result (λ ending. IsClosed self.old self.new ending) }
    {
        self.marks.push(Mark::Closed)?;
        Ok(Ending::Finished)
    }

    // A child with one more scalar is branched.
    fn enter(&mut self, seq: &Sequence, child: Kept, scalar: u8) -> Result<Kept, NoMemory>
        requires place { IsAt seq.now self.old.position }
        requires scalar { scalar < seq.now.scalars }
        requires unplaced { has (concat (node_lists (here self.old.position))) scalar ≡ false }
        requires child { child ≡ kept_at self.old.position.registers seq.now (with_scalar (here self.old.position) scalar) }
        ensures enters { IfOk result (λ kept. Enters seq.now scalar self.old.position self.new.position kept) }
        ensures writes { IfOk result (λ _. Writes (Branched ∷ []) self.old self.new) }
    {
        self.marks.push(Mark::Branched)?;
        Ok(self.position.enter(seq, child, scalar))
    }

    // And one whose open list is closed. The weights are found that its bound didn't need.
    fn enter_closed(&mut self, seq: &Sequence, child: Kept) -> Result<Kept, NoMemory>
        requires place { IsAtWith (greatest_needed seq.now self.old.position) (greatest_needed seq.now self.old.position) seq.now self.old.position }
        requires child { child ≡ kept_found (greatest_needed seq.now self.old.position) (greatest_needed seq.now self.old.position) seq.now (here self.old.position) }
        requires none { (here self.old.position).open_list ≡ [] }
        ensures weighs { IfOk result (λ kept. Weighs (needs_weights seq.now) (greatest_needed seq.now self.old.position) seq.now self.old.position self.new.position kept) }
        ensures writes { IfOk result (λ _. Writes (Branched ∷ []) self.old self.new) }
    {
        self.marks.push(Mark::Branched)?;
        Ok(self.position.weigh_for_costs(seq, child))
    }

    // A complete node is the best layout where it costs less.
    fn complete(&mut self, seq: &Sequence, child: Kept, scalar: u8) -> Result<(), NoMemory>
        requires place { IsAt seq.now self.old.position }
        requires best { HasBest seq.now self.old }
        requires scalar { scalar < seq.now.scalars }
        requires unplaced { has (concat (node_lists (here self.old.position))) scalar ≡ false }
        requires child { child ≡ kept_at self.old.position.registers seq.now (with_scalar (here self.old.position) scalar) }
        requires complete { is_complete seq.now (with_scalar (here self.old.position) scalar) ≡ true }
        ensures { IfOk result (λ _. Completes seq.now (with_scalar (here self.old.position) scalar) self.old self.new) }
    {
        let cost = self.position.complete_cost(seq, child, scalar);
        self.offer(scalar, cost)
    }

    // The string with one more scalar is the best layout where it costs less, which is given.
    fn offer(&mut self, scalar: u8, cost: u64) -> Result<(), NoMemory>
        ensures { IfOk result (λ _. Offers (self.old.position.string.items ++ (scalar ∷ [])) cost self.old self.new) }
    {
        if self.cost <= cost {
            return Ok(());
        }
        self.cost = cost;
        self.best.clear();
        self.best.extend_from_slice(self.position.string())?;
        self.best.push(scalar)?;
        Ok(())
    }
}
