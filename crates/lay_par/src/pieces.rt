//! The pieces of a round, at once.
ghost use Rattle.std.specs.Prelude.{◌<◌, ◌≤◌, ◌-◌, IfOk};
ghost use Rattle.std.specs.Thread.{IsSync};
ghost use Rattle.lay_tree.specs.Tree as tree;
ghost use Rattle.lay_tree.specs.Tree.{with_scalar};
ghost use Rattle.lay_tree.specs.Search.{piece_end};
ghost use Rattle.lay_search.specs.Ends.{IsEnd};
ghost use Rattle.lay_search.specs.Roots.{IsRoot};
ghost use Rattle.lay_search.specs.Rounds.{IsBest, Ran};

use lay_model::Sequence;
use lay_search::{Best, Root};
use lay_tree::PieceEnd;
use std::alloc::Global;
use std::thread::{Threads, join};
use word_base::{Gate, NoMemory};

/// Pieces of a round, from the first up to before the end, each with the same number of marks that it may write.
#[derive(Clone, Copy)]
pub(crate) struct Pieces {
    pub(crate) quota: u32,
    pub(crate) first: u8,
    pub(crate) end: u8,
}

/// The ends of the pieces, each with the same best arrangement at first. The first piece is one half of a join, and those behind it are the other one. The
/// second half runs in this thread, so that one thread begins all others, one behind another: threads that two threads begin at once may be put on one
/// processor, and wait there for one another while another processor has nothing to do.
#[cycle(pieces)]
pub(crate) fn run_pieces<R: Threads + Sync, G: Gate + Sync>(
    rt: &R,
    alloc: Global,
    gate: &G,
    seq: &Sequence,
    root: &Root,
    pieces: Pieces,
    best: &Best,
) -> Result<Vec<PieceEnd>, NoMemory>
    requires root { IsRoot seq.now root.now }
    requires order { pieces.first ≤ pieces.end }
    requires end { pieces.end ≤ seq.now.scalars }
    requires best { IsBest seq.now best.now }
    ensures { IfOk result (λ ends. Ran root.now.position.registers seq.now pieces.quota best.now.arrangement pieces.first (pieces.end - pieces.first) ends.items) }
{
    if pieces.end - pieces.first < 2 {
        return run_in_turn(alloc, gate, seq, root, pieces, best);
    }
    let second = pieces.first + 1;
    let lower = Pieces {
        end: second,
        ..pieces
    };
    let upper = Pieces {
        first: second,
        ..pieces
    };
    let (first, others) = join(
        rt,
        move || -> Result<Vec<PieceEnd>, NoMemory>
            requires { IsRoot seq.now root.now × (lower.first ≤ lower.end) × (lower.end ≤ seq.now.scalars) × IsBest seq.now best.now }
            ensures { IfOk result (λ ends. Ran root.entry.now.position.registers seq.entry.now lower.quota best.entry.now.arrangement lower.first (lower.end - lower.first) ends.items) }
        { run_in_turn(alloc, gate, seq, root, lower, best) },
        move || -> Result<Vec<PieceEnd>, NoMemory>
            requires { IsSync R.row × IsSync G.row × IsRoot seq.now root.now × (upper.first ≤ upper.end) × (upper.end ≤ seq.now.scalars) × IsBest seq.now best.now }
            ensures { IfOk result (λ ends. Ran root.entry.now.position.registers seq.entry.now upper.quota best.entry.now.arrangement upper.first (upper.end - upper.first) ends.items) }
        { run_pieces(rt, alloc, gate, seq, root, upper, best) },
    );
    let mut ends = first?;
    let mut more = others?;
    ends.append(&mut more)?;
    Ok(ends)
}

// One piece behind another.
fn run_in_turn<G: Gate>(
    alloc: Global,
    gate: &G,
    seq: &Sequence,
    root: &Root,
    pieces: Pieces,
    best: &Best,
) -> Result<Vec<PieceEnd>, NoMemory>
    requires root { IsRoot seq.now root.now }
    requires order { pieces.first ≤ pieces.end }
    requires end { pieces.end ≤ seq.now.scalars }
    requires best { IsBest seq.now best.now }
    ensures { IfOk result (λ ends. Ran root.now.position.registers seq.now pieces.quota best.now.arrangement pieces.first (pieces.end - pieces.first) ends.items) }
{
    let mut ends = Vec::new(alloc);
    for number in pieces.first..pieces.end {
        let end = run_gated(alloc, gate, seq, root, pieces.quota, number, best)?;
        ends.push(end)?;
    }
    Ok(ends)
}

// The end of a piece, which the gate sees begin and end.
fn run_gated<G: Gate>(
    alloc: Global,
    gate: &G,
    seq: &Sequence,
    root: &Root,
    quota: u32,
    number: u8,
    best: &Best,
) -> Result<PieceEnd, NoMemory>
    requires root { IsRoot seq.now root.now }
    requires number { number < seq.now.scalars }
    requires best { IsBest seq.now best.now }
    ensures { IfOk result (λ end. IsEnd seq.now (piece_end root.now.position.registers seq.now quota best.now.arrangement (with_scalar tree.root number)) end) }
{
    gate.enter(u32::from(number));
    let end = root.run_piece(alloc, seq, quota, number, &best.arrangement, best.cost);
    gate.leave(u32::from(number));
    end
}
