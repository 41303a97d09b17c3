//! The strongly connected components of the calls among functions: in each, all functions reach each other.
ghost use Rattle.std.specs.Prelude.{◌≡◌, length, IfOk};

use std::alloc::Global;
use word_base::NoMemory;

/// A level for each function, by those that it calls, from 1 on: two have the same exactly where they are in one component, and
/// no function calls one on a higher level. No clause says so, and the caller tests what it needs.
pub(crate) fn levels_of(alloc: Global, callees: &[Vec<u16>]) -> Result<Vec<usize>, NoMemory>
    ensures { IfOk result (λ levels. length levels.items ≡ length callees.now) }
{
    let mut levels = vec![in alloc; 0; callees.len()]?;
    Components::new(alloc, callees.len())?.search(callees, &mut levels)?;
    Ok(levels)
}

/// What is still to be done in a search.
#[derive(Drop)]
enum Visit {
    Enter(usize),
    /// All calls of the function at this place of the path have been followed.
    Leave { place: usize },
}

#[derive(Clone, Copy)]
enum State {
    New,
    /// Its component isn't complete: its place on the path.
    OnPath(usize),
    Complete,
}

/// A search by depth. Each function on its path reaches all behind it.
#[derive(Drop)]
struct Components {
    /// What is to be done next stands last.
    visits: Vec<Visit>,
    states: Vec<State>,
    /// The functions whose components aren't complete, in the order in which they were entered.
    path: Vec<usize>,
    /// The places on the path at which components begin, rising, by the calls that were followed so far.
    begins: Vec<usize>,
    /// How many components are complete.
    complete: usize,
}

impl Components {
    fn new(alloc: Global, functions: usize) -> Result<Self, NoMemory> {
        let mut visits = Vec::new(alloc);
        for function in 0..functions {
            visits.push(Visit::Enter(function))?;
        }
        Ok(Components {
            visits,
            states: vec![in alloc; State::New; functions]?,
            path: Vec::new(alloc),
            begins: Vec::new(alloc),
            complete: 0,
        })
    }

    fn search(mut self, callees: &[Vec<u16>], levels: &mut [usize]) -> Result<(), NoMemory> {
        // A visit stands for a function, for a call or for a leaving, which are fewer, so this only ends inside.
        for _ in 0..usize::MAX {
            match self.visits.pop() {
                None => break,
                Some(Visit::Enter(function)) => self.visit(function, callees)?,
                Some(Visit::Leave { place }) => self.leave(place, levels),
            }
        }
        Ok(())
    }

    fn visit(&mut self, function: usize, callees: &[Vec<u16>]) -> Result<(), NoMemory> {
        match self.states.get(function).copied() {
            None | Some(State::Complete) => {}
            Some(State::New) => self.enter(function, callees)?,
            Some(State::OnPath(place)) => self.join(place),
        }
        Ok(())
    }

    // A function is a component of its own, until a call joins it to those before it.
    fn enter(&mut self, function: usize, callees: &[Vec<u16>]) -> Result<(), NoMemory> {
        let place = self.path.len();
        if let Some(state) = self.states.get_mut(function) {
            *state = State::OnPath(place);
        }
        self.path.push(function)?;
        self.begins.push(place)?;
        self.visits.push(Visit::Leave { place })?;
        if let Some(called) = callees.get(function) {
            for callee in called {
                self.visits.push(Visit::Enter(usize::from(*callee)))?;
            }
        }
        Ok(())
    }

    // A function of the last component on the path calls the one at a place, so all from there on reach each other.
    fn join(&mut self, place: usize) {
        for _ in 0..self.begins.len() {
            if self.begins.last().is_some_and(|begin| *begin > place) {
                self.begins.pop();
            } else {
                break;
            }
        }
    }

    // A component is complete when the function with which it begins is left.
    fn leave(&mut self, place: usize, levels: &mut [usize]) {
        if self.begins.last() != Some(&place) {
            return;
        }
        self.begins.pop();
        self.complete = self.complete.saturating_add(1);
        for _ in place..self.path.len() {
            if let Some(function) = self.path.pop() {
                self.put(function, levels);
            }
        }
    }

    fn put(&mut self, function: usize, levels: &mut [usize]) {
        if let Some(state) = self.states.get_mut(function) {
            *state = State::Complete;
        }
        if let Some(level) = levels.get_mut(function) {
            *level = self.complete;
        }
    }
}
