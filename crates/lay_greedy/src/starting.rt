//! The layout from which a search begins.
ghost use Rattle.std.specs.Prelude.{◌≡◌, ◌<◌, ◌≤◌, [], ◌∷◌, length, map, nat_lt, All, IfOk, if◌then◌else◌};
ghost use Rattle.lay_model.specs.Arrangements.{Arranges};
ghost use Rattle.lay_cost.specs.Cost.{IsArranged, arranged_cost};
ghost use Rattle.lay_cost.specs.Weights.{weight_at};
ghost use Rattle.lay_tree.specs.Tree as trees;
ghost use Rattle.lay_tree.specs.Greedy as layouts;
ghost use Rattle.lay_tree.specs.Greedy.{filled, starting_lists};

use crate::edges::edges_in_order;
use crate::lists::set_of;
use crate::paths::Paths;
use crate::spread::spread;
use lay_cost::{WeightTable, cost, weights};
use lay_model::{Arrangement, MOST_SCALARS, ScalarList, Sequence};
use std::alloc::Global;
use word_base::NoMemory;

/// The best of three layouts over so many registers, the first one where they cost the same: the scalars spread over registers, and
/// each register's put in a greedy list; all in one greedy list; all in rising order.
pub fn greedy(alloc: Global, seq: &Sequence, registers: u8) -> Result<Arrangement, NoMemory>
    requires { 1 ≤ registers }
    ensures lists { IfOk result (λ a. a ≡ starting_lists registers seq.now) }
    ensures arranged { IfOk result (IsArranged seq.now registers) }
{
    let spread = spread_layout(alloc, seq, registers)?;
    if seq.scalars() == 0 {
        return Ok(spread);
    }
    let best = cheaper(seq, spread, greedy_layout(alloc, seq)?);
    Ok(cheaper(seq, best, rising_layout(alloc, seq)?))
}

// The first one, unless the second one costs less.
fn cheaper(seq: &Sequence, first: Arrangement, second: Arrangement) -> Arrangement
    requires first { Arranges seq.now.scalars first }
    requires second { Arranges seq.now.scalars second }
    ensures { result ≡ (if nat_lt (arranged_cost seq.now second) (arranged_cost seq.now first) then second else first) }
{
    if cost(seq, &second) < cost(seq, &first) {
        second
    } else {
        first
    }
}

// The scalars spread over registers, and each register's in a greedy list.
fn spread_layout(alloc: Global, seq: &Sequence, registers: u8) -> Result<Arrangement, NoMemory>
    requires { 1 ≤ registers }
    ensures lists { IfOk result (λ a. a ≡ map (layouts.greedy_list seq.now) (filled (layouts.spread registers seq.now))) }
    ensures arranges { IfOk result (Arranges seq.now.scalars) }
{
    let few = seq.scalars() <= MOST_SCALARS;
    prove!(few);
    let spread = spread(alloc, seq, registers)?;
    Ok(Arrangement::new(greedy_lists(alloc, seq, &spread)?))
}

// Each list that isn't empty, as a greedy one.
fn greedy_lists(
    alloc: Global,
    seq: &Sequence,
    lists: &[ScalarList],
) -> Result<Vec<ScalarList>, NoMemory>
    requires { All (λ list. All (λ s. s < 64) list) lists.now }
    ensures { IfOk result (λ greedy. greedy.items ≡ map (layouts.greedy_list seq.now) (filled lists.now)) }
{
    let mut greedy = Vec::new(alloc);
    for list in lists {
        if !list.scalars().is_empty() {
            greedy.push(greedy_list(alloc, seq, list.scalars())?)?;
        }
    }
    Ok(greedy)
}

// All scalars in one greedy list.
fn greedy_layout(alloc: Global, seq: &Sequence) -> Result<Arrangement, NoMemory>
    requires { 1 ≤ seq.now.scalars }
    ensures lists { IfOk result (λ a. a ≡ layouts.greedy_list seq.now (trees.all_scalars seq.now) ∷ []) }
    ensures arranges { IfOk result (Arranges seq.now.scalars) }
{
    let few = seq.scalars() <= MOST_SCALARS;
    prove!(few);
    let scalars = all_scalars(alloc, seq)?;
    one_list(alloc, greedy_list(alloc, seq, &scalars)?)
}

// All scalars in rising order, in one list.
fn rising_layout(alloc: Global, seq: &Sequence) -> Result<Arrangement, NoMemory>
    requires { 1 ≤ seq.now.scalars }
    ensures lists { IfOk result (λ a. a ≡ trees.all_scalars seq.now ∷ []) }
    ensures arranges { IfOk result (Arranges seq.now.scalars) }
{
    let few = seq.scalars() <= MOST_SCALARS;
    prove!(few);
    let scalars = all_scalars(alloc, seq)?;
    one_list(alloc, ScalarList::new(scalars))
}

// An arrangement in one list.
fn one_list(alloc: Global, list: ScalarList) -> Result<Arrangement, NoMemory>
    requires { Arranges (length list) (list ∷ []) }
    ensures { IfOk result (λ a. a ≡ list ∷ []) }
{
    let mut lists = Vec::new(alloc);
    lists.push(list)?;
    Ok(Arrangement::new(lists))
}

// The scalars in rising order.
fn all_scalars(alloc: Global, seq: &Sequence) -> Result<Vec<u8>, NoMemory>
    ensures { IfOk result (λ scalars. scalars.items ≡ trees.all_scalars seq.now) }
{
    let mut scalars = Vec::new(alloc);
    for scalar in 0..seq.scalars() {
        scalars.push(scalar)?;
    }
    Ok(scalars)
}

// The scalars of a set, in rising order, in one list: neighbours that are often beside one another are joined first.
fn greedy_list(alloc: Global, seq: &Sequence, members: &[u8]) -> Result<ScalarList, NoMemory>
    requires { All (λ s. s < 64) members.now }
    ensures { IfOk result (λ list. list ≡ layouts.greedy_list seq.now members.now) }
{
    let few = seq.scalars() <= MOST_SCALARS;
    prove!(few);
    let table = weights(alloc, seq, set_of(members))?;
    paths_of(alloc, &table, members)?.in_one_list(alloc, members)
}

// The paths of the edges that are taken.
fn paths_of(alloc: Global, table: &WeightTable, members: &[u8]) -> Result<Paths, NoMemory>
    requires { All (λ s. s < 64) members.now }
    ensures { IfOk result (λ paths. paths ≡ layouts.paths_of (weight_at table.now) members.now) }
{
    let edges = edges_in_order(alloc, table, members)?;
    let mut paths = Paths::of_scalars(alloc, members)?;
    for edge in &edges {
        paths.join(alloc, edge)?;
    }
    Ok(paths)
}
