//! The way down the tree and up again, by the marks of a log.
ghost use Rattle.std.specs.Prelude.{◌≡◌, ◌<◌, ◌≤◌, ◌+◌, false, true, [], ◌∷◌, drop, length, IfOk, MatchResult};
ghost use Rattle.std.specs.List.{concat};
ghost use Rattle.lay_cost.specs.Placements.{has};
ghost use Rattle.lay_cost.specs.Parts.{node_lists};
ghost use Rattle.lay_tree.specs.Tree.{root, is_complete, is_empty, has_closes_left, with_scalar, with_close, children};
ghost use Rattle.lay_tree.specs.Bound.{bound};
ghost use Rattle.lay_tree.specs.Replays as logs;
ghost use Rattle.lay_node.specs.Numbers.{kept_in, kept_at, kept_found};
ghost use Rattle.lay_node.specs.Positions.{here, greatest_needed, HasLevels, IsAt, IsAtWith};
ghost use Rattle.lay_replay.specs.LogVerdicts.{replay_at};
ghost use Rattle.lay_replay.specs.Walks.{Reads, Fits, FitsHere, Fails};
ghost use Rattle.lay_replay.specs.declared.verdict.Fault.TheVariants as faults;

use crate::checks::{check_branched, check_closed};
use crate::verdict::Fault;
use lay_model::Sequence;
use lay_node::{Kept, Position};
use lay_tree::Mark;
use std::alloc::Global;
use word_base::NoMemory;

/// Where a walk over the tree is, and how far the log is read.
#[derive(Drop)]
pub(crate) struct Walk {
    pub(crate) position: Position,
    /// The number of the mark that is read next.
    pub(crate) next: usize,
}

impl Walk {
    pub(crate) fn new(alloc: Global, registers: u8) -> Result<Self, NoMemory>
        ensures registers { IfOk result (λ w. w.position.registers ≡ registers) }
        ensures levels { IfOk result (λ w. HasLevels w.position) }
    {
        Ok(Walk {
            position: Position::new(alloc, registers)?,
            next: 0,
        })
    }

    /// The whole log.
    pub(crate) fn replay(&mut self, seq: &Sequence, cost: u64, marks: &[Mark]) -> Result<(), Fault>
        requires registers { 1 ≤ self.old.position.registers }
        requires levels { HasLevels self.old.position }
        ensures log { MatchResult result (λ _. logs.replay self.old.position.registers seq.now cost marks.now ≡ logs.Fits) (λ fault. logs.replay self.old.position.registers seq.now cost marks.now ≡ replay_at fault) }
        ensures registers { self.new.position.registers ≡ self.old.position.registers }
        ensures levels { HasLevels self.new.position }
    {
        self.next = 0;
        let kept = self.position.begin(seq);
        self.visit_root(seq, kept, cost, marks)?;
        self.check_end(marks)
    }

    // The root, and what is below it.
    fn visit_root(
        &mut self,
        seq: &Sequence,
        kept: Kept,
        cost: u64,
        marks: &[Mark],
    ) -> Result<(), Fault>
        requires place { IsAt seq.now self.old.position }
        requires root { here self.old.position ≡ root }
        requires kept { kept ≡ kept_in self.old.position.registers seq.now root }
        ensures { MatchResult result (λ _. FitsHere seq.now cost marks.now (root ∷ []) self.old self.new) (λ fault. Fails seq.now cost marks.now (root ∷ []) self.old self.new fault) }
    {
        match self.read(marks)? {
            Mark::Closed => check_closed(self.node(), self.root_bound(seq, kept), cost),
            Mark::Branched => {
                check_branched(self.node(), kept)?;
                self.expand(seq, kept, cost, marks)
            }
        }
    }

    // No mark is left over.
    fn check_end(&self, marks: &[Mark]) -> Result<(), Fault>
        ensures { MatchResult result (λ _. drop self.now.next marks.now ≡ []) (λ fault. (self.now.next < length marks.now) × (fault ≡ faults.NoShape self.now.next)) }
    {
        if self.next < marks.len() {
            Err(self.misplaced())
        } else {
            Ok(())
        }
    }

    // The next mark, which is wanting where the log is over.
    fn read(&mut self, marks: &[Mark]) -> Result<Mark, Fault>
        ensures mark { MatchResult result (λ mark. Reads marks.now mark self.old self.new) (λ fault. (drop self.old.next marks.now ≡ []) × (fault ≡ faults.NoShape self.old.next)) }
        ensures place { self.new.position ≡ self.old.position }
    {
        let Some(mark) = marks.get(self.next) else {
            return Err(self.misplaced());
        };
        self.next += 1;
        Ok(*mark)
    }

    // The mark that is read next is absent, or left over.
    fn misplaced(&self) -> Fault
        ensures { result ≡ faults.NoShape self.now.next }
    {
        Fault::NoShape {
            node: self.next as u64,
        }
    }

    // The number of the mark that was read last.
    fn node(&self) -> u64
        requires { 1 ≤ self.now.next }
        ensures { result + 1 ≡ self.now.next }
    {
        (self.next - 1) as u64
    }

    // The bound of the root.
    fn root_bound(&self, seq: &Sequence, kept: Kept) -> i64
        requires place { IsAt seq.now self.now.position }
        requires root { here self.now.position ≡ root }
        requires kept { kept ≡ kept_in self.now.position.registers seq.now root }
        ensures { result ≡ bound self.now.position.registers seq.now root }
    {
        if kept.is_complete() {
            0
        } else {
            self.position.bound(seq, kept)
        }
    }

    // The bound of the child with one more scalar.
    fn child_bound(&mut self, seq: &Sequence, child: Kept, scalar: u8) -> i64
        requires place { IsAt seq.now self.old.position }
        requires scalar { scalar < seq.now.scalars }
        requires unplaced { has (concat (node_lists (here self.old.position))) scalar ≡ false }
        requires child { child ≡ kept_at self.old.position.registers seq.now (with_scalar (here self.old.position) scalar) }
        ensures bound { result ≡ bound self.old.position.registers seq.now (with_scalar (here self.old.position) scalar) }
        ensures same { self.new ≡ self.old }
    {
        if child.is_complete() {
            self.position.complete_cost(seq, child, scalar) as i64
        } else {
            self.position.bound(seq, child)
        }
    }

    // The children of a node, and what is below them.
    #[cycle(walk)]
    fn expand(&mut self, seq: &Sequence, kept: Kept, cost: u64, marks: &[Mark]) -> Result<(), Fault>
        requires place { IsAt seq.now self.old.position }
        requires kept { kept ≡ kept_in self.old.position.registers seq.now (here self.old.position) }
        requires incomplete { is_complete seq.now (here self.old.position) ≡ false }
        ensures { MatchResult result (λ _. FitsHere seq.now cost marks.now (children self.old.position.registers seq.now (here self.old.position)) self.old self.new) (λ fault. Fails seq.now cost marks.now (children self.old.position.registers seq.now (here self.old.position)) self.old self.new fault) }
    {
        for scalar in 0..seq.scalars() {
            if !self.position.is_placed(scalar) {
                self.visit_scalar(seq, kept, scalar, cost, marks)?;
            }
        }
        if self.position.closes_next(kept) {
            self.visit_close(seq, kept, cost, marks)
        } else {
            Ok(())
        }
    }

    // The child with one more scalar, and what is below it.
    #[cycle(walk)]
    fn visit_scalar(
        &mut self,
        seq: &Sequence,
        kept: Kept,
        scalar: u8,
        cost: u64,
        marks: &[Mark],
    ) -> Result<(), Fault>
        requires place { IsAt seq.now self.old.position }
        requires kept { kept ≡ kept_in self.old.position.registers seq.now (here self.old.position) }
        requires scalar { scalar < seq.now.scalars }
        requires unplaced { has (concat (node_lists (here self.old.position))) scalar ≡ false }
        ensures { MatchResult result (λ _. FitsHere seq.now cost marks.now (with_scalar (here self.old.position) scalar ∷ []) self.old self.new) (λ fault. Fails seq.now cost marks.now (with_scalar (here self.old.position) scalar ∷ []) self.old self.new fault) }
    {
        let mark = self.read(marks)?;
        let child = self.position.child_of(seq, kept, scalar);
        match mark {
            Mark::Closed => {
                let bound = self.child_bound(seq, child, scalar);
                check_closed(self.node(), bound, cost)
            }
            Mark::Branched => {
                check_branched(self.node(), child)?;
                self.branch(seq, child, scalar, cost, marks)
            }
        }
    }

    // What is below that child.
    #[cycle(walk)]
    fn branch(
        &mut self,
        seq: &Sequence,
        child: Kept,
        scalar: u8,
        cost: u64,
        marks: &[Mark],
    ) -> Result<(), Fault>
        requires place { IsAt seq.now self.old.position }
        requires scalar { scalar < seq.now.scalars }
        requires unplaced { has (concat (node_lists (here self.old.position))) scalar ≡ false }
        requires child { child ≡ kept_at self.old.position.registers seq.now (with_scalar (here self.old.position) scalar) }
        requires incomplete { is_complete seq.now (with_scalar (here self.old.position) scalar) ≡ false }
        ensures { MatchResult result (λ _. FitsHere seq.now cost marks.now (children self.old.position.registers seq.now (with_scalar (here self.old.position) scalar)) self.old self.new) (λ fault. Fails seq.now cost marks.now (children self.old.position.registers seq.now (with_scalar (here self.old.position) scalar)) self.old self.new fault) }
    {
        let kept = self.position.enter(seq, child, scalar);
        self.expand(seq, kept, cost, marks)?;
        self.position.leave(seq, child, scalar);
        Ok(())
    }

    // The child whose open list is closed, and what is below it.
    #[cycle(walk)]
    fn visit_close(
        &mut self,
        seq: &Sequence,
        kept: Kept,
        cost: u64,
        marks: &[Mark],
    ) -> Result<(), Fault>
        requires place { IsAt seq.now self.old.position }
        requires kept { kept ≡ kept_in self.old.position.registers seq.now (here self.old.position) }
        requires some { is_empty (here self.old.position).open_list ≡ false }
        requires left { has_closes_left self.old.position.registers (here self.old.position) ≡ true }
        requires incomplete { is_complete seq.now (here self.old.position) ≡ false }
        ensures { MatchResult result (λ _. FitsHere seq.now cost marks.now (with_close (here self.old.position) ∷ []) self.old self.new) (λ fault. Fails seq.now cost marks.now (with_close (here self.old.position) ∷ []) self.old self.new fault) }
    {
        let outside = self.position.outside();
        let child = self.position.close_list(seq, kept);
        self.visit_closed(seq, child, cost, marks)?;
        self.position.reopen(outside);
        Ok(())
    }

    #[cycle(walk)]
    fn visit_closed(
        &mut self,
        seq: &Sequence,
        child: Kept,
        cost: u64,
        marks: &[Mark],
    ) -> Result<(), Fault>
        requires place { IsAtWith (greatest_needed seq.now self.old.position) (greatest_needed seq.now self.old.position) seq.now self.old.position }
        requires child { child ≡ kept_found (greatest_needed seq.now self.old.position) (greatest_needed seq.now self.old.position) seq.now (here self.old.position) }
        requires none { (here self.old.position).open_list ≡ [] }
        requires incomplete { is_complete seq.now (here self.old.position) ≡ false }
        ensures { MatchResult result (λ _. Fits (length (here self.old.position).closed) seq.now cost marks.now (here self.old.position ∷ []) self.old self.new) (λ fault. Fails seq.now cost marks.now (here self.old.position ∷ []) self.old self.new fault) }
    {
        match self.read(marks)? {
            Mark::Closed => check_closed(self.node(), self.position.bound(seq, child), cost),
            Mark::Branched => {
                let kept = self.position.weigh_for_costs(seq, child);
                self.expand(seq, kept, cost, marks)
            }
        }
    }
}
