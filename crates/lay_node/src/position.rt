//! A walk over the tree.
ghost use Rattle.std.specs.Prelude.{◌≡◌, ◌<◌, ◌≤◌, ℕ, true, false, not, [], length, slice_index_or, IfOk, ◌^◌, is_some, ◌&&◌};
ghost use Rattle.std.specs.List.{concat};
ghost use Rattle.lay_model.specs.Arrangements.{Arranges};
ghost use Rattle.lay_model.specs.Sequences.{IsSequence};
ghost use Rattle.lay_cost.specs.Placements.{has};
ghost use Rattle.lay_cost.specs.Cost.{arranged_cost};
ghost use Rattle.lay_cost.specs.Restricted.{in_bits};
ghost use Rattle.lay_cost.specs.Parts.{node_lists, part_cost_of, IsString};
ghost use Rattle.lay_tree.specs.Tree.{is_complete, is_empty, has_closes_left, with_scalar};
ghost use Rattle.lay_node.specs.Levels.{is_free};
ghost use Rattle.lay_node.specs.Numbers.{kept_in, kept_at, kept_found, needs_weights, kept_reaches, kept_bound, may_close, by_loads, AreSmall};
ghost use Rattle.lay_node.specs.Positions.{here, greatest_needed, IsAt, IsAtWith, HasLevels, IsCopy, Knows, Enters, Leaves, Weighs, Closes, Reopens};

use crate::kept::Kept;
use crate::level::Level;
use crate::open_list::open_list;
use arrayvec::ArrayVec;
use lay_cost::{CLOSE, loads, part_cost};
use lay_model::Sequence;
use std::alloc::Global;
use word_base::NoMemory;

/// Where a walk over the tree is, with what the bounds of the node's children need.
#[derive(Drop)]
pub struct Position {
    pub(crate) registers: u8,
    /// The node's scalars and closes. A close stands only behind a scalar, and there are 64 of these at most.
    pub(crate) string: ArrayVec<u8, 128>,
    pub(crate) placed: [bool; 64],
    /// The scalars outside closed lists, by bits.
    pub(crate) outside: u64,
    /// By the number of closed lists.
    pub(crate) levels: Vec<Level>,
}

impl Position {
    /// With room for walks over so many registers. A walk begins by `begin`.
    pub fn new(alloc: Global, registers: u8) -> Result<Self, NoMemory>
        ensures registers { IfOk result (λ p. p.registers ≡ registers) }
        ensures levels { IfOk result HasLevels }
    {
        Ok(Position {
            registers,
            string: ArrayVec::new(),
            placed: [false; 64],
            outside: 0,
            levels: levels(alloc, registers)?,
        })
    }

    /// The same place again, for a walk of its own.
    pub fn copy(&self, alloc: Global) -> Result<Self, NoMemory>
        ensures { IfOk result (IsCopy self.now) }
    {
        Ok(Position {
            registers: self.registers,
            string: self.string.clone()?,
            placed: self.placed,
            outside: self.outside,
            levels: copies_of(alloc, &self.levels)?,
        })
    }

    /// Goes to the root, from wherever it is, and answers what is kept of it.
    pub fn begin(&mut self, seq: &Sequence) -> Kept
        requires registers { 1 ≤ self.old.registers }
        requires levels { HasLevels self.old }
        ensures { Knows seq.now self.old self.new result }
    {
        self.string.clear();
        self.placed = [false; 64];
        self.outside = unplaced_of(&self.placed, seq.scalars());
        let kept = Kept {
            closes: 0,
            unplaced: seq.scalars(),
            last: None,
            closed: 0,
            loads: loads(seq, self.outside),
            paid: 0,
            saved: 0,
            greatest: 0,
        };
        let kept = self.weigh_for_bound(seq, kept);
        self.weigh_for_costs(seq, kept)
    }

    /// The node's scalars and closes.
    pub fn string(&self) -> &[u8]
        ensures { result.now ≡ self.now.string.items }
    {
        &self.string
    }

    /// Whether a scalar stands in a list of the node.
    pub fn is_placed(&self, scalar: u8) -> bool
        requires { scalar < 64 }
        ensures { result ≡ slice_index_or self.now.placed scalar false }
    {
        self.placed[usize::from(scalar)]
    }

    /// The scalars outside closed lists, by bits, which `reopen` asks for.
    pub fn outside(&self) -> u64
        ensures { result ≡ self.now.outside }
    {
        self.outside
    }

    // The weights outside the closed lists of a node whose open list is empty, where its bound needs them.
    fn weigh_for_bound(&mut self, seq: &Sequence, kept: Kept) -> Kept
        requires place { IsAtWith false false seq.now self.old }
        requires kept { kept ≡ kept_found false false seq.now (here self.old) }
        requires none { (here self.old).open_list ≡ [] }
        ensures { Weighs (greatest_needed seq.now self.old) (greatest_needed seq.now self.old) seq.now self.old self.new result }
    {
        if self.bounds_by_loads(seq, kept) {
            return kept;
        }
        let level = &mut self.levels[usize::from(kept.closes)];
        let greatest = level.refill(seq, self.outside, &self.placed);
        let paid = level.total(seq.scalars());
        Kept {
            paid,
            greatest,
            ..kept
        }
    }

    /// Behind a close, before its children come: finds the weights that its bound didn't need and complete nodes below it do.
    pub fn weigh_for_costs(&mut self, seq: &Sequence, kept: Kept) -> Kept
        requires place { IsAtWith (greatest_needed seq.now self.old) (greatest_needed seq.now self.old) seq.now self.old }
        requires kept { kept ≡ kept_found (greatest_needed seq.now self.old) (greatest_needed seq.now self.old) seq.now (here self.old) }
        requires none { (here self.old).open_list ≡ [] }
        ensures { Weighs (needs_weights seq.now) (greatest_needed seq.now self.old) seq.now self.old self.new result }
    {
        if seq.step() > 1 || !self.may_close(kept) {
            return kept;
        }
        let level = &mut self.levels[usize::from(kept.closes)];
        level.weights.refill(seq, self.outside);
        let paid = level.total(seq.scalars());
        Kept { paid, ..kept }
    }

    /// Whether the bound of a node that isn't complete is at least a cost, by what is kept of the node.
    pub fn reaches(&self, seq: &Sequence, kept: Kept, cost: u64) -> bool
        requires small { AreSmall kept }
        requires cost { cost ≤ 2 ^ 60 }
        ensures { result ≡ kept_reaches self.now.registers seq.now.step kept cost }
    {
        if self.bounds_by_loads(seq, kept) {
            kept.reaches_by_loads(cost)
        } else {
            kept.reaches_in_last_list(cost)
        }
    }

    /// The bound of a node that isn't complete, by what is kept of the node.
    pub fn bound(&self, seq: &Sequence, kept: Kept) -> i64
        requires { AreSmall kept }
        ensures { result ≡ kept_bound self.now.registers seq.now.step kept }
    {
        if self.bounds_by_loads(seq, kept) {
            kept.bound_by_loads()
        } else {
            kept.bound_in_last_list()
        }
    }

    // Whether bounds come from loads alone.
    fn bounds_by_loads(&self, seq: &Sequence, kept: Kept) -> bool
        ensures { result ≡ by_loads self.now.registers seq.now.step kept }
    {
        self.may_close(kept) || seq.step() > 1
    }

    fn may_close(&self, kept: Kept) -> bool
        ensures { result ≡ may_close self.now.registers kept }
    {
        u16::from(kept.closes) + 1 < u16::from(self.registers)
    }

    /// Whether a close is the last child of a node that isn't complete.
    pub fn closes_next(&self, kept: Kept) -> bool
        ensures { result ≡ (is_some kept.last && may_close self.now.registers kept) }
    {
        kept.last.is_some() && self.may_close(kept)
    }

    /// The child with one more scalar, as its bound needs it.
    pub fn child_of(&self, seq: &Sequence, kept: Kept, scalar: u8) -> Kept
        requires place { IsAt seq.now self.now }
        requires kept { kept ≡ kept_in self.now.registers seq.now (here self.now) }
        requires scalar { scalar < seq.now.scalars }
        requires unplaced { has (concat (node_lists (here self.now))) scalar ≡ false }
        ensures { result ≡ kept_at self.now.registers seq.now (with_scalar (here self.now) scalar) }
    {
        if seq.step() > 1 {
            return kept.with_scalar(scalar, 0, 0);
        }
        let level = &self.levels[usize::from(kept.closes)];
        let beside = level.beside(kept.last, scalar);
        if self.may_close(kept) {
            kept.with_scalar(scalar, beside, 0)
        } else {
            kept.with_scalar(scalar, beside, level.greatest(scalar))
        }
    }

    /// What the child with one more scalar costs, where it is complete.
    pub fn complete_cost(&mut self, seq: &Sequence, child: Kept, scalar: u8) -> u64
        requires place { IsAt seq.now self.old }
        requires scalar { scalar < seq.now.scalars }
        requires unplaced { has (concat (node_lists (here self.old))) scalar ≡ false }
        requires child { child ≡ kept_at self.old.registers seq.now (with_scalar (here self.old) scalar) }
        requires complete { is_complete seq.now (with_scalar (here self.old) scalar) ≡ true }
        ensures cost { result ≡ arranged_cost seq.now (node_lists (with_scalar (here self.old) scalar)) }
        ensures same { self.new ≡ self.old }
    {
        self.string.push(scalar);
        let cost = self.cost_here(seq, child);
        self.string.pop();
        cost
    }

    // What the lists of the string cost, which hold all scalars.
    fn cost_here(&self, seq: &Sequence, kept: Kept) -> u64
        requires sequence { IsSequence seq.now }
        requires string { IsString seq.now.scalars self.now.string.items }
        requires arranges { Arranges seq.now.scalars (node_lists (here self.now)) }
        requires kept { kept ≡ kept_at self.now.registers seq.now (here self.now) }
        requires small { AreSmall kept }
        ensures { result ≡ arranged_cost seq.now (node_lists (here self.now)) }
    {
        if seq.step() > 1 {
            part_cost(seq, &self.string)
        } else {
            kept.cost()
        }
    }

    /// Goes down to the child with one more scalar, and answers what its children need.
    pub fn enter(&mut self, seq: &Sequence, child: Kept, scalar: u8) -> Kept
        requires place { IsAt seq.now self.old }
        requires scalar { scalar < seq.now.scalars }
        requires unplaced { has (concat (node_lists (here self.old))) scalar ≡ false }
        requires child { child ≡ kept_at self.old.registers seq.now (with_scalar (here self.old) scalar) }
        ensures { Enters seq.now scalar self.old self.new result }
    {
        self.string.push(scalar);
        self.placed[usize::from(scalar)] = true;
        if self.bounds_by_loads(seq, child) {
            return child;
        }
        let greatest = self.levels[usize::from(child.closes)].take_out(
            scalar,
            seq.scalars(),
            &self.placed,
        );
        Kept { greatest, ..child }
    }

    /// And up again. The child is given as its bound needed it.
    pub fn leave(&mut self, seq: &Sequence, child: Kept, scalar: u8)
        requires level { child.closes < length self.old.levels.items }
        requires scalar { scalar < 64 }
        ensures { Leaves (not (by_loads self.old.registers seq.now.step child)) seq.now child.closes scalar self.old self.new }
    {
        if !self.bounds_by_loads(seq, child) {
            let level = &mut self.levels[usize::from(child.closes)];
            level.put_back(scalar, seq.scalars(), &self.placed);
        }
        self.placed[usize::from(scalar)] = false;
        self.string.pop();
    }

    // What the lists cost when the open one is closed too. At a step of 1 the costs of lists add up.
    fn closed_cost(&self, seq: &Sequence, kept: Kept) -> u64
        requires place { IsAt seq.now self.now }
        requires kept { kept ≡ kept_in self.now.registers seq.now (here self.now) }
        ensures { result ≡ part_cost_of seq.now (node_lists (here self.now)) }
    {
        if seq.step() > 1 {
            part_cost(seq, &self.string)
        } else {
            kept.closed + part_cost(seq, open_list(&self.string))
        }
    }

    /// Goes down to the child whose open list is closed, and answers what its bound needs.
    pub fn close_list(&mut self, seq: &Sequence, kept: Kept) -> Kept
        requires place { IsAt seq.now self.old }
        requires kept { kept ≡ kept_in self.old.registers seq.now (here self.old) }
        requires some { is_empty (here self.old).open_list ≡ false }
        requires left { has_closes_left self.old.registers (here self.old) ≡ true }
        ensures { Closes seq.now self.old self.new result }
    {
        let closed = self.closed_cost(seq, kept);
        self.outside = unplaced_of(&self.placed, seq.scalars());
        self.string.push(CLOSE);
        let child = Kept {
            closes: kept.closes + 1,
            unplaced: kept.unplaced,
            last: None,
            closed,
            loads: loads(seq, self.outside),
            paid: 0,
            saved: 0,
            greatest: 0,
        };
        self.weigh_for_bound(seq, child)
    }

    /// And up again, with what `outside` answered before.
    pub fn reopen(&mut self, outside: u64)
        ensures { Reopens outside self.old self.new }
    {
        self.string.pop();
        self.outside = outside;
    }
}

// A level for each number of closed lists.
fn levels(alloc: Global, registers: u8) -> Result<Vec<Level>, NoMemory>
    ensures { IfOk result (λ levels. length levels.items ≡ registers) }
{
    let mut levels = Vec::new(alloc);
    for _closes in 0..registers {
        levels.push(Level::new(alloc)?)?;
    }
    Ok(levels)
}

fn copies_of(alloc: Global, levels: &[Level]) -> Result<Vec<Level>, NoMemory>
    ensures { IfOk result (λ copies. copies.items ≡ levels.now) }
{
    let mut copies = Vec::new(alloc);
    for level in levels {
        copies.push(level.copy(alloc)?)?;
    }
    Ok(copies)
}

// The scalars that aren't placed, by bits.
fn unplaced_of(placed: &[bool; 64], scalars: u8) -> u64
    requires { scalars ≤ 64 }
    ensures { (s : ℕ) → s < scalars → in_bits result s ≡ is_free placed.now s }
{
    let mut set = 0;
    for scalar in (0..scalars).rev() {
        set = set * 2 + u64::from(!placed[usize::from(scalar)]);
    }
    set
}
