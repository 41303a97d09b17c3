//! The scalars spread over registers.
ghost use Rattle.std.specs.Prelude.{◌≡◌, ◌<◌, ◌≤◌, [], length, replicate, IfOk, OnOk};
ghost use Rattle.lay_cost.specs.Parts.{part_cost_of};
ghost use Rattle.lay_tree.specs.Greedy as layouts;
ghost use Rattle.lay_tree.specs.Greedy.{filled};
ghost use Rattle.lay_greedy.specs.Spread.{IsNext, with_scalar_at, with_list, string_of};

use lay_cost::{CLOSE, part_cost};
use lay_model::{MOST_SCALARS, ScalarList, Sequence};
use std::alloc::Global;
use word_base::NoMemory;

/// The scalars in rising order, each at the end of the list where it costs least over the accesses of those that are placed, the first
/// such list. There is one for each register.
pub(crate) fn spread(
    alloc: Global,
    seq: &Sequence,
    registers: u8,
) -> Result<Vec<ScalarList>, NoMemory>
    requires { 1 ≤ registers }
    ensures { IfOk result (λ lists. lists.items ≡ layouts.spread registers seq.now) }
{
    let mut lists = empty_lists(alloc, registers)?;
    for scalar in 0..seq.scalars() {
        lists = with_scalar_placed(alloc, seq, &lists, scalar)?;
    }
    Ok(lists)
}

// A list for each register.
fn empty_lists(alloc: Global, registers: u8) -> Result<Vec<ScalarList>, NoMemory>
    ensures { IfOk result (λ lists. lists.items ≡ replicate registers []) }
{
    let mut lists = Vec::new(alloc);
    for _ in 0..registers {
        lists.push(ScalarList::new(Vec::new(alloc)))?;
    }
    Ok(lists)
}

// The lists with a scalar more where it costs least.
fn with_scalar_placed(
    alloc: Global,
    seq: &Sequence,
    lists: &[ScalarList],
    scalar: u8,
) -> Result<Vec<ScalarList>, NoMemory>
    requires some { 1 ≤ length lists.now }
    requires next { IsNext lists.now scalar }
    requires scalar { scalar < seq.now.scalars }
    ensures { IfOk result (λ more. more.items ≡ layouts.with_scalar_placed seq.now lists.now scalar) }
{
    let register = cheapest_register(alloc, seq, lists, scalar)?;
    with_scalar_at(alloc, scalar, lists, register)
}

// The first register where one scalar more costs least. On one register there is nothing to be compared.
fn cheapest_register(
    alloc: Global,
    seq: &Sequence,
    lists: &[ScalarList],
    scalar: u8,
) -> Result<usize, NoMemory>
    requires some { 1 ≤ length lists.now }
    requires next { IsNext lists.now scalar }
    requires scalar { scalar < seq.now.scalars }
    ensures register { IfOk result (λ register. register < length lists.now) }
    ensures cheapest { IfOk result (λ register. with_scalar_at scalar lists.now register ≡ layouts.with_scalar_placed seq.now lists.now scalar) }
{
    if lists.len() == 1 {
        return Ok(0);
    }
    let mut best = 0;
    let mut least = cost_at(alloc, seq, lists, 0, scalar)?;
    for register in 1..lists.len() {
        let costs = cost_at(alloc, seq, lists, register, scalar)?;
        if costs < least {
            best = register;
            least = costs;
        }
    }
    Ok(best)
}

// What the scalars that are placed cost over their own accesses, with one more at the end of the list of a register.
fn cost_at(
    alloc: Global,
    seq: &Sequence,
    lists: &[ScalarList],
    register: usize,
    scalar: u8,
) -> Result<u64, NoMemory>
    requires register { register < length lists.now }
    requires next { IsNext lists.now scalar }
    requires scalar { scalar < seq.now.scalars }
    ensures { IfOk result (λ costs. costs ≡ part_cost_of seq.now (filled (with_scalar_at scalar lists.now register))) }
{
    let few = seq.scalars() <= MOST_SCALARS;
    prove!(few);
    let lists = with_scalar_at(alloc, scalar, lists, register)?;
    let string = string_of(alloc, &lists)?;
    Ok(part_cost(seq, &string))
}

// The lists with a scalar more at the end of the list of a register.
fn with_scalar_at(
    alloc: Global,
    scalar: u8,
    lists: &[ScalarList],
    register: usize,
) -> Result<Vec<ScalarList>, NoMemory>
    requires { register < length lists.now }
    ensures { IfOk result (λ more. more.items ≡ with_scalar_at scalar lists.now register) }
{
    let mut more = Vec::new(alloc);
    for (place, list) in lists.iter().enumerate() {
        let mut scalars = Vec::from_slice(alloc, list.scalars())?;
        if place == register {
            scalars.push(scalar)?;
        }
        more.push(ScalarList::new(scalars))?;
    }
    Ok(more)
}

// The lists that aren't empty, with a close between two of them.
fn string_of(alloc: Global, lists: &[ScalarList]) -> Result<Vec<u8>, NoMemory>
    ensures { IfOk result (λ string. string.items ≡ string_of lists.now) }
{
    let mut string = Vec::new(alloc);
    for list in lists {
        push_list(&mut string, list.scalars())?;
    }
    Ok(string)
}

// One list more, unless it is empty.
fn push_list(string: &mut Vec<u8>, list: &[u8]) -> Result<(), NoMemory>
    ensures { OnOk result (string.new.items ≡ with_list string.old.items list.now) }
{
    if !string.is_empty() && !list.is_empty() {
        string.push(CLOSE)?;
    }
    string.extend_from_slice(list)?;
    Ok(())
}
