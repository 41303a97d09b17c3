//! How a search begins.
ghost use Rattle.std.specs.Prelude.{◌≡◌, ◌≤◌, ◌^◌, ◌||◌, IfOk};
ghost use Rattle.lay_tree.specs.Tree.{root, is_complete};
ghost use Rattle.lay_tree.specs.Bound.{bound};
ghost use Rattle.lay_tree.specs.Search as tree;
ghost use Rattle.lay_tree.specs.Search.{reaches};
ghost use Rattle.lay_search.specs.Openings.{Opens};

use crate::root::Root;
use lay_cost::cost;
use lay_greedy::greedy;
use lay_model::{Arrangement, Sequence};
use lay_tree::{Answer, Log, Mark};
use std::alloc::Global;
use word_base::NoMemory;

/// How a search begins.
#[derive(Drop)]
pub enum Opening {
    /// Nothing is to be searched.
    Done(Answer),
    /// The starting layout with its cost, how many pieces there are, and how many marks each of them may write.
    Split {
        arrangement: Arrangement,
        cost: u64,
        pieces: u8,
        quota: u32,
    },
}

/// The starting layout, and whether the root alone ends the search: `Done` exactly where its bound reaches what that layout costs, or where
/// it is complete, as it is of no scalars. Else `Split`. Want of memory where an allocation fails.
pub fn open_search(
    alloc: Global,
    seq: &Sequence,
    registers: u8,
    budget: u32,
) -> Result<Opening, NoMemory>
    requires { 1 ≤ registers }
    ensures { IfOk result (Opens registers seq.now budget) }
{
    let arrangement = greedy(alloc, seq, registers)?;
    let cost = cost(seq, &arrangement);
    let pieces = seq.scalars();
    if is_settled(alloc, seq, registers, cost)? {
        let mut marks = Vec::new(alloc);
        marks.push(Mark::Closed)?;
        return Ok(Opening::Done(Answer::Certified {
            arrangement,
            cost,
            log: Log { marks },
        }));
    }
    Ok(Opening::Split {
        arrangement,
        cost,
        pieces,
        quota: quota_of(budget, pieces),
    })
}

// Whether no node below the root costs less.
fn is_settled(alloc: Global, seq: &Sequence, registers: u8, cost: u64) -> Result<bool, NoMemory>
    requires registers { 1 ≤ registers }
    requires cost { cost ≤ 2 ^ 60 }
    ensures { IfOk result (λ settled. settled ≡ (reaches (bound registers seq.now root) cost || is_complete seq.now root)) }
{
    if seq.scalars() == 0 {
        return Ok(true);
    }
    let root = Root::new(alloc, seq, registers)?;
    Ok(root.position.reaches(seq, root.kept, cost))
}

// How many marks a piece may write.
fn quota_of(budget: u32, pieces: u8) -> u32
    requires { 1 ≤ pieces }
    ensures { result ≡ tree.quota_of budget pieces }
{
    let share = budget / u32::from(pieces);
    if share == 0 { 1 } else { share }
}
