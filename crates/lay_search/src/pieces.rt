//! A search in pieces, and the answer that their ends make.
ghost use Rattle.std.specs.Prelude.{◌≡◌, ◌<◌, ◌≤◌, length, All, IfOk};
ghost use Rattle.std.specs.List.{concat, join_with_byte};
ghost use Rattle.lay_model.specs.Arrangements.{Arranges};
ghost use Rattle.lay_cost.specs.Cost.{arranged_cost};
ghost use Rattle.lay_cost.specs.Parts.{lists_of};
ghost use Rattle.lay_tree.specs.Tree.{root, with_scalar};
ghost use Rattle.lay_tree.specs.Search.{piece_end};
ghost use Rattle.lay_search.specs.Descents.{is_finished};
ghost use Rattle.lay_search.specs.Ends.{IsEnd};

use crate::descent::{Descent, Ending};
use crate::root::Root;
use lay_cost::CLOSE;
use lay_model::{Arrangement, ScalarList, Sequence};
use lay_tree::{Log, PieceEnd};
use std::alloc::Global;
use std::mem::replace;
use word_base::NoMemory;

/// The piece of this number: the child of the root with this scalar, and what is below it, with an arrangement that costs so much as
/// the best one at first.
pub fn run_piece(
    alloc: Global,
    seq: &Sequence,
    registers: u8,
    quota: u32,
    number: u8,
    arrangement: &Arrangement,
    cost: u64,
) -> Result<PieceEnd, NoMemory>
    requires registers { 1 ≤ registers }
    requires number { number < seq.now.scalars }
    requires arranges { Arranges seq.now.scalars arrangement.now }
    requires cost { cost ≡ arranged_cost seq.now arrangement.now }
    ensures { IfOk result (λ end. IsEnd seq.now (piece_end registers seq.now quota arrangement.now (with_scalar root number)) end) }
{
    let root = Root::new(alloc, seq, registers)?;
    root.run_piece(alloc, seq, quota, number, arrangement, cost)
}

/// What a piece shows, when its search has ended.
pub(crate) fn end_of(alloc: Global, descent: Descent, ending: Ending) -> Result<PieceEnd, NoMemory>
    requires { Arranges (length (concat (lists_of descent.best.items))) (lists_of descent.best.items) }
    ensures { IfOk result (λ end. end ≡ record { arrangement = lists_of descent.best.items; cost = descent.cost; finished = is_finished ending; log = descent.marks.items }) }
{
    Ok(PieceEnd {
        arrangement: arrangement_of(alloc, &descent.best)?,
        cost: descent.cost,
        finished: ending.is_finished(),
        log: Log {
            marks: descent.marks,
        },
    })
}

/// The lists of an arrangement with a close between two of them.
pub(crate) fn string_of(alloc: Global, lists: &[ScalarList]) -> Result<Vec<u8>, NoMemory>
    requires { All (λ list. 1 ≤ length list) lists.now }
    ensures { IfOk result (λ string. string.items ≡ join_with_byte 255 lists.now) }
{
    let mut string = Vec::new(alloc);
    for list in lists {
        if !string.is_empty() {
            string.push(CLOSE)?;
        }
        string.extend_from_slice(list.scalars())?;
    }
    Ok(string)
}

// The arrangement in the lists of a string.
fn arrangement_of(alloc: Global, string: &[u8]) -> Result<Arrangement, NoMemory>
    requires { Arranges (length (concat (lists_of string.now))) (lists_of string.now) }
    ensures { IfOk result (λ arrangement. arrangement ≡ lists_of string.now) }
{
    let mut lists = Vec::new(alloc);
    let mut list = Vec::new(alloc);
    for sign in string {
        if *sign == CLOSE {
            lists.push(ScalarList::new(replace(&mut list, Vec::new(alloc))))?;
        } else {
            list.push(*sign)?;
        }
    }
    lists.push(ScalarList::new(list))?;
    Ok(Arrangement::new(lists))
}
