//! Functions that don't reach themselves, seen by levels that never rise along calls.
ghost use Rattle.std.specs.Prelude.{◌≡◌, ◌<◌, ◌≤◌, ℕ, length, map, vec_items, true, IfOk, slice_index};
ghost use Rattle.std.specs.List.{Contains};
ghost use Rattle.c_tree.specs.Rounds.{CallsAmong};
ghost use Rattle.c_limits.specs.Calls.{AreOrdered, NeverRise, FallBefore};
ghost use Rattle.c_rules.specs.Rounds.{NoneBelow};

use crate::components::levels_of;
use std::alloc::Global;
use word_base::NoMemory;

/// How many functions, from the first on, are shown by levels not to reach themselves by calls: 0 to all. Where the levels are
/// those of strongly connected components, the next one does, if there is one. The lists have the numbers of the functions that
/// each calls.
pub(crate) fn first_suspect(alloc: Global, callees: &[Vec<u16>]) -> Result<usize, NoMemory>
    requires { AreOrdered (map vec_items callees.now) }
    ensures { IfOk result (λ first. NoneBelow (CallsAmong (map vec_items callees.now)) first) }
{
    let levels = levels_of(alloc, callees)?;
    // A way from a function to itself that never rises doesn't fall either.
    if never_rise(&levels, callees) {
        Ok(count_falling(&levels, callees))
    } else {
        Ok(0)
    }
}

// No function calls one on a higher level.
fn never_rise(levels: &[usize], callees: &[Vec<u16>]) -> bool
    requires size { length levels.now ≡ length callees.now }
    requires bodies { AreOrdered (map vec_items callees.now) }
    ensures { result ≡ true → NeverRise levels.now (map vec_items callees.now) }
{
    for (n, called) in callees.iter().enumerate() {
        if highest(levels, called) > levels[n] {
            return false;
        }
    }
    true
}

// How many functions stand before the first that calls one on a level not below its own, or is itself on level 0.
fn count_falling(levels: &[usize], callees: &[Vec<u16>]) -> usize
    requires size { length levels.now ≡ length callees.now }
    requires bodies { AreOrdered (map vec_items callees.now) }
    ensures { FallBefore levels.now (map vec_items callees.now) result }
{
    for (n, called) in callees.iter().enumerate() {
        if highest(levels, called) >= levels[n] {
            return n;
        }
    }
    callees.len()
}

// The highest level of functions that are called, or 0.
fn highest(levels: &[usize], called: &[u16]) -> usize
    requires { (m : ℕ) → Contains called.now m → m < length levels.now }
    ensures { (m : ℕ) → Contains called.now m → slice_index levels.now m ≤ result }
{
    let mut highest = 0;
    for callee in called {
        highest = highest.max(levels[usize::from(*callee)]);
    }
    highest
}
