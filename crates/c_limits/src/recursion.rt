//! The first function that reaches itself by calls, and the first of its ways round.
ghost use Rattle.std.specs.Prelude.{◌≡◌, ◌<◌, ◌+◌, ◌∷◌, [], ℕ, map, length, replicate, false, ◌≢◌, slice_get, vec_items, IfOk, MatchOption};
ghost use Rattle.std.specs.List.{All, AllZip};
ghost use Rattle.c_tree.specs.Uses.{called};
ghost use Rattle.c_tree.specs.Rounds.{CallsAmong};
ghost use Rattle.c_limits.specs.Calls.{IsOrdered, AreOrdered};
ghost use Rattle.c_rules.specs.Chains.{name_of};
ghost use Rattle.c_rules.specs.Rounds.{IsFirstChain, HasNoRound, NoneBelow};
ghost use Rattle.c_limits.specs.Trails.{Reached, IsLinked, HasSearched, trail_of, way_at};
ghost use Rattle.c_limits.specs.FunctionView.{typed_function_of};

use crate::calls::first_suspect;
use crate::functions::TypedFunction;
use c_tree::Use;
use std::alloc::Global;
use word_base::{Items, NoMemory, Text};

/// A function that a search has reached, and the place of the one whose call it was reached by. The search starts at the one
/// that has none.
#[derive(Clone, Copy)]
struct Step {
    function: usize,
    from: Option<usize>,
}

/// A search for the first way by which a function reaches itself. It goes by the number of calls, and then by the order of
/// definition.
#[derive(Drop)]
struct Search {
    /// The functions that are reached, in the order of the ways to them.
    steps: Vec<Step>,
    /// Which functions are reached by a call.
    entered: Vec<bool>,
}

/// The numbers of the first function that reaches itself by calls, of those on the first of its ways round, and of itself again.
/// None, where no function reaches itself. Each function that is called is among those whose uses are given.
pub(crate) fn first_round(alloc: Global, uses: &[Vec<Use>]) -> Result<Option<Vec<usize>>, NoMemory>
    requires { (n m : ℕ) → CallsAmong (map called (map vec_items uses.now)) n m → m < length uses.now }
    ensures { IfOk result (λ found. MatchOption found (HasNoRound (CallsAmong (map called (map vec_items uses.now)))) (λ numbers. IsFirstChain (CallsAmong (map called (map vec_items uses.now))) numbers.items)) }
{
    let callees = all_callees(alloc, uses)?;
    let start = first_suspect(alloc, &callees)?;
    let mut search = Search {
        steps: Vec::new(alloc),
        entered: vec![in alloc; false; uses.len()]?,
    };
    for first in start..uses.len() {
        if let Some(round) = search.round(alloc, first, &callees)? {
            return Ok(Some(round));
        }
    }
    Ok(None)
}

/// The names of functions, by their numbers. Each number is that of a function.
pub(crate) fn names_of(
    alloc: Global,
    functions: &[TypedFunction],
    numbers: &[usize],
) -> Result<Items<Text>, NoMemory>
    requires { All (λ n. n < length functions.now) numbers.now }
    ensures { IfOk result (λ names. map Some names ≡ map (name_of (map typed_function_of functions.now)) numbers.now) }
{
    let mut names = Vec::new(alloc);
    for number in numbers {
        let function = &functions[*number];
        names.push(Text::copy_of(alloc, function.name.as_str())?)?;
    }
    Ok(Items::new(names))
}

impl Search {
    // The first way round of a function, with it at both ends, where none before it reaches itself.
    fn round(
        &mut self,
        alloc: Global,
        first: usize,
        callees: &[Vec<u16>],
    ) -> Result<Option<Vec<usize>>, NoMemory>
        requires ordered { AreOrdered (map vec_items callees.now) }
        requires size { length self.old.entered.items ≡ length callees.now }
        requires first { first < length callees.now }
        requires earlier { NoneBelow (CallsAmong (map vec_items callees.now)) first }
        ensures size { IfOk result (λ _. length self.new.entered.items ≡ length self.old.entered.items) }
        ensures found { IfOk result (λ found. MatchOption found (NoneBelow (CallsAmong (map vec_items callees.now)) (first + 1)) (λ numbers. IsFirstChain (CallsAmong (map vec_items callees.now)) numbers.items)) }
    {
        self.start(first)?;
        // The places end before the numbers do, so this only ends inside.
        for place in 0..usize::MAX {
            let Some(step) = self.steps.get(place) else {
                return Ok(None);
            };
            if place > 0 && step.function == first {
                return Ok(Some(self.way_to(alloc, first, place)?));
            }
            self.follow(first, place, callees)?;
        }
        Ok(None)
    }

    fn start(&mut self, first: usize) -> Result<(), NoMemory>
        ensures steps { IfOk result (λ _. self.new.steps.items ≡ record { function = first; from = None } ∷ []) }
        ensures entered { IfOk result (λ _. self.new.entered.items ≡ replicate (length self.old.entered.items) false) }
    {
        self.steps.clear();
        self.entered.fill(false);
        self.steps.push(Step {
            function: first,
            from: None,
        })?;
        Ok(())
    }

    // Enters the functions that the one at a place calls. No way round goes through one before the first, since that one would
    // reach itself too.
    fn follow(&mut self, first: usize, place: usize, callees: &[Vec<u16>]) -> Result<(), NoMemory>
        requires ordered { AreOrdered (map vec_items callees.now) }
        requires first { first < length callees.now }
        requires place { place < length self.old.steps.items }
        requires apart { 0 < place → (r : Reached) → slice_get (trail_of self.old.steps.items) place ≡ Some r → r.function ≢ first }
        requires searched { HasSearched (map vec_items callees.now) first self.old place }
        ensures { IfOk result (λ _. HasSearched (map vec_items callees.now) first self.new (place + 1)) }
    {
        let caller = self.steps[place].function;
        for callee in &callees[caller] {
            let function = usize::from(*callee);
            if function >= first && !self.entered[function] {
                self.entered[function] = true;
                self.steps.push(Step {
                    function,
                    from: Some(place),
                })?;
            }
        }
        Ok(())
    }

    // The way to a place, with the function where the search starts before it.
    fn way_to(&self, alloc: Global, first: usize, place: usize) -> Result<Vec<usize>, NoMemory>
        requires linked { IsLinked first self.now.steps.items }
        requires place { place < length self.now.steps.items }
        ensures { IfOk result (λ way. way.items ≡ first ∷ way_at (trail_of self.now.steps.items) place) }
    {
        let mut way = Vec::new(alloc);
        let mut next = Some(place);
        while let Some(place) = next {
            let step = self.steps[place];
            way.push(step.function)?;
            next = step.from;
        }
        way.reverse();
        Ok(way)
    }
}

// The functions that each function calls, in rising order.
fn all_callees(alloc: Global, uses: &[Vec<Use>]) -> Result<Vec<Vec<u16>>, NoMemory>
    ensures { IfOk result (λ lists. AllZip IsOrdered (map vec_items lists.items) (map called (map vec_items uses.now))) }
{
    let mut lists = Vec::new(alloc);
    for list in uses {
        lists.push(callees_of(alloc, list)?)?;
    }
    Ok(lists)
}

fn callees_of(alloc: Global, uses: &[Use]) -> Result<Vec<u16>, NoMemory>
    ensures { IfOk result (λ list. IsOrdered list.items (called uses.now)) }
{
    let mut callees = called(alloc, uses)?;
    callees.sort_unstable();
    Ok(callees)
}

// The functions that are called, in order of their calls.
fn called(alloc: Global, uses: &[Use]) -> Result<Vec<u16>, NoMemory>
    ensures { IfOk result (λ list. list.items ≡ called uses.now) }
{
    let mut callees = Vec::new(alloc);
    for found in uses {
        if let Use::Call { function, .. } = found {
            callees.push(*function)?;
        }
    }
    Ok(callees)
}
