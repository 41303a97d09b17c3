//! A whole search, in rounds of pieces.
ghost use Rattle.std.specs.Prelude.{◌≡◌, ◌≤◌, ◌+◌, fold, IfOk};
ghost use Rattle.lay_tree.specs.Search as tree;
ghost use Rattle.lay_search.specs.Roots.{IsRoot};
ghost use Rattle.lay_search.specs.Rounds.{IsBest, offered, Ran, round_length};

use crate::closing::close_search;
use crate::opening::{Opening, open_search};
use crate::root::Root;
use lay_model::{Arrangement, ScalarList, Sequence};
use lay_tree::{Answer, PieceEnd};
use std::alloc::Global;
use word_base::NoMemory;

/// A layout and what it costs.
#[derive(Drop)]
pub struct Best {
    pub arrangement: Arrangement,
    pub cost: u64,
}

/// Searches an arrangement over so many registers, 1 to 4, that costs least, with so many nodes in all at most.
pub fn search(alloc: Global, seq: &Sequence, registers: u8, budget: u32) -> Result<Answer, NoMemory>
    requires { 1 ≤ registers }
    ensures { IfOk result (λ answer. answer ≡ tree.search_answer registers seq.now budget) }
{
    match open_search(alloc, seq, registers, budget)? {
        Opening::Done(answer) => Ok(answer),
        Opening::Split {
            arrangement,
            cost,
            quota,
            ..
        } => search_pieces(alloc, seq, registers, quota, Best { arrangement, cost }),
    }
}

// Rounds of four pieces, each with the best arrangement that stood before its round.
fn search_pieces(
    alloc: Global,
    seq: &Sequence,
    registers: u8,
    quota: u32,
    start: Best,
) -> Result<Answer, NoMemory>
    requires registers { 1 ≤ registers }
    requires start { IsBest seq.now start }
    ensures { IfOk result (λ answer. answer ≡ tree.search_pieces registers seq.now quota start.arrangement) }
{
    let root = Root::new(alloc, seq, registers)?;
    let mut best = start;
    let mut ends = Vec::new(alloc);
    for round in 0..seq.scalars().div_ceil(4) {
        let mut more = run_round(alloc, seq, &root, quota, round * 4, &best)?;
        best.take(alloc, &more)?;
        ends.append(&mut more)?;
    }
    close_search(alloc, quota, best.arrangement, best.cost, &ends)
}

// The round of four pieces, or of those that are left, from this one on.
fn run_round(
    alloc: Global,
    seq: &Sequence,
    root: &Root,
    quota: u32,
    first: u8,
    best: &Best,
) -> Result<Vec<PieceEnd>, NoMemory>
    requires root { IsRoot seq.now root.now }
    requires first { first ≤ seq.now.scalars }
    requires best { IsBest seq.now best.now }
    ensures { IfOk result (λ ends. Ran root.now.position.registers seq.now quota best.now.arrangement first (round_length first seq.now.scalars) ends.items) }
{
    let last = round_end(first, seq.scalars());
    let mut ends = Vec::new(alloc);
    for number in first..last {
        let end = root.run_piece(alloc, seq, quota, number, &best.arrangement, best.cost)?;
        ends.push(end)?;
    }
    Ok(ends)
}

/// The number behind the last piece of a round, with this first piece, of so many pieces in all.
pub fn round_end(first: u8, pieces: u8) -> u8
    requires few { pieces ≤ 64 }
    requires first { first ≤ pieces }
    ensures { result ≡ first + round_length first pieces }
{
    if pieces - first < 4 {
        pieces
    } else {
        first + 4
    }
}

impl Best {
    /// The best one behind the ends of a round, in order.
    pub fn take(&mut self, alloc: Global, ends: &[PieceEnd]) -> Result<(), NoMemory>
        ensures { IfOk result (λ _. self.new ≡ fold offered self.old ends.now) }
    {
        for end in ends {
            self.offer(alloc, end)?;
        }
        Ok(())
    }

    fn offer(&mut self, alloc: Global, end: &PieceEnd) -> Result<(), NoMemory>
        ensures { IfOk result (λ _. self.new ≡ offered self.old end.now) }
    {
        if end.cost < self.cost {
            self.arrangement = copy_of(alloc, &end.arrangement)?;
            self.cost = end.cost;
        }
        Ok(())
    }
}

fn copy_of(alloc: Global, arrangement: &Arrangement) -> Result<Arrangement, NoMemory>
    ensures { IfOk result (λ copy. copy ≡ arrangement.now) }
{
    let mut lists = Vec::new(alloc);
    for list in arrangement.lists() {
        lists.push(ScalarList::new(list.scalars().to_vec(alloc)?))?;
    }
    Ok(Arrangement::new(lists))
}
