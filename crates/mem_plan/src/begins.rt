//! Where frames begin, in words behind the static objects. A search follows the calls of one function after another, each
//! behind all those that call it.
ghost use Rattle.std.specs.Prelude.{◌≡◌, ◌<◌, ◌≤◌, ◌+◌, ◌^◌, ℕ, length, max, slice_index, IfOk};
ghost use Rattle.std.specs.List.{Contains};
ghost use Rattle.c_tree.specs.Declarations.{occurrences};
ghost use Rattle.mem_plan.specs.Gathered.{AreBeginsBy, AreProgramNeeds};
ghost use Rattle.mem_plan.specs.Search.{AreReady, HasFollowed, all_calls_to, begins_behind, calls_at, order_behind, waiting_behind};

use crate::needs::FunctionNeeds;
use std::alloc::Global;
use word_base::NoMemory;

/// Where each function's frame begins.
pub(crate) fn begins_of(alloc: Global, needs: &[FunctionNeeds]) -> Result<Vec<u64>, NoMemory>
    requires { AreProgramNeeds needs.now }
    ensures { IfOk result (λ begins. AreBeginsBy needs.now begins.items) }
{
    let mut search = Search::new(alloc, needs)?;
    for place in 0..needs.len() {
        search.follow(place, needs)?;
    }
    Ok(search.begins)
}

/// The larger of two numbers.
pub(crate) fn larger(a: u64, b: u64) -> u64
    ensures { result ≡ max a b }
{
    if a < b { b } else { a }
}

#[derive(Drop)]
struct Search {
    /// Where each frame begins, by the calls that have been followed.
    begins: Vec<u64>,
    /// How many calls of each function haven't been. 64 bits might not hold those of all functions together.
    waiting: Vec<u128>,
    /// The functions of which all calls have been followed. Theirs are in this order.
    order: Vec<usize>,
}

impl Search {
    fn new(alloc: Global, needs: &[FunctionNeeds]) -> Result<Self, NoMemory>
        requires { AreProgramNeeds needs.now }
        ensures { IfOk result (λ search. HasFollowed needs.now 0 search) }
    {
        let waiting = waiting_of(alloc, needs)?;
        let order = ready_of(alloc, &waiting)?;
        Ok(Search {
            begins: vec![in alloc; 0; needs.len()]?,
            waiting,
            order,
        })
    }

    // The calls of the function at a place of the order.
    fn follow(&mut self, place: usize, needs: &[FunctionNeeds]) -> Result<(), NoMemory>
        requires needs { AreProgramNeeds needs.now }
        requires place { place < length needs.now }
        requires followed { HasFollowed needs.now place self.old }
        ensures { IfOk result (λ _. HasFollowed needs.now (place + 1) self.new) }
    {
        let function = self.order[place];
        let caller = &needs[function];
        let end = self.begins[function] + caller.own;
        for called in caller.calls.as_slice() {
            self.pass(usize::from(*called), end)?;
        }
        Ok(())
    }

    // A call of a function by one whose frame ends here.
    fn pass(&mut self, function: usize, end: u64) -> Result<(), NoMemory>
        requires begins { function < length self.old.begins.items }
        requires waiting { function < length self.old.waiting.items }
        requires some { 0 < slice_index self.old.waiting.items function }
        ensures begins { IfOk result (λ _. self.new.begins.items ≡ begins_behind self.old.begins.items function end) }
        ensures waiting { IfOk result (λ _. self.new.waiting.items ≡ waiting_behind self.old.waiting.items function) }
        ensures order { IfOk result (λ _. self.new.order.items ≡ order_behind self.old.waiting.items self.old.order.items function) }
    {
        self.begins[function] = larger(self.begins[function], end);
        let waiting = self.waiting[function] - 1;
        self.waiting[function] = waiting;
        if waiting == 0 {
            self.order.push(function)?;
        }
        Ok(())
    }
}

// How many calls there are of each function.
fn waiting_of(alloc: Global, needs: &[FunctionNeeds]) -> Result<Vec<u128>, NoMemory>
    requires { AreProgramNeeds needs.now }
    ensures size { IfOk result (λ w. length w.items ≡ length needs.now) }
    ensures calls { IfOk result (λ w. (f : ℕ) → f < length needs.now → slice_index w.items f ≡ all_calls_to (calls_at needs.now) f (length needs.now)) }
{
    let mut waiting = vec![in alloc; 0; needs.len()]?;
    for caller in needs {
        count(caller.calls.as_slice(), &mut waiting);
    }
    Ok(waiting)
}

// A function's calls of each.
fn count(calls: &[u16], waiting: &mut [u128])
    requires bodies { (f : ℕ) → Contains calls.now f → f < length waiting.old }
    requires room { (f : ℕ) → slice_index waiting.old f ≤ 2 ^ 72 }
    ensures size { length waiting.new ≡ length waiting.old }
    ensures calls { (f : ℕ) → f < length waiting.old → slice_index waiting.new f ≡ slice_index waiting.old f + occurrences f calls.now }
    ensures few { (f : ℕ) → slice_index waiting.new f ≤ slice_index waiting.old f + 2 ^ 64 }
{
    for called in calls {
        waiting[usize::from(*called)] += 1;
    }
}

// The functions of which no call is waited for.
fn ready_of(alloc: Global, waiting: &[u128]) -> Result<Vec<usize>, NoMemory>
    ensures { IfOk result (λ order. AreReady (length waiting.now) waiting.now order.items) }
{
    let mut order = Vec::new(alloc);
    for (number, waiting) in waiting.iter().enumerate() {
        if *waiting == 0 {
            order.push(number)?;
        }
    }
    Ok(order)
}
