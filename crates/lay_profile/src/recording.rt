//! How often the run of an image comes to program addresses.
ghost use Rattle.std.specs.Prelude.{◌≡◌, ◌≤◌, ◌<◌, ◌+◌, ℕ, map, sum, All, IfOk, not, length, vec_len};
ghost use Rattle.word_base.specs.Ports.{input_of};
ghost use Rattle.c25_isa.specs.MachineRun.{reset};
ghost use Rattle.c25_isa.specs.State.{State, zero_start};
ghost use Rattle.c25_sim.specs.Answers.{event_of};
ghost use Rattle.c25_sim.specs.MachineView.{state_of};
ghost use Rattle.c25_sim.specs.Taken.{of_sixteen};
ghost use Rattle.lay_cost.specs.Parts.{StandOnce};
ghost use Rattle.lay_profile.specs.Entries.{times_at, entries_of};
ghost use Rattle.lay_profile.specs.Counting.{goes_on, AreTimes};

use c25_isa::{Event, Image, Start};
use c25_sim::Machine;
use std::alloc::Global;
use word_base::{NoMemory, Ports};

/// How many program addresses there are.
const ADDRESSES: usize = 65_536;

// Whether a run ends with a step, or stops there by a trap.
fn is_last(event: &Event) -> bool
    ensures { (s : State) → result ≡ not (goes_on (event_of event.now s)) }
{
    match event {
        Event::Ran | Event::Out(_) => false,
        Event::Ended(_) | Event::Trap { .. } => true,
    }
}

// Counts at which address each of so many steps of a machine is done, up to an end or a trap.
fn count_steps(alloc: Global, machine: &mut Machine, steps: u64) -> Result<Vec<u64>, NoMemory>
    requires { steps ≤ 100000000 }
    ensures length { IfOk result (λ counts. vec_len counts ≡ 65536) }
    ensures counts { IfOk result (λ counts. AreTimes (state_of machine.old) steps counts.items) }
{
    let mut counts = vec![in alloc; 0; ADDRESSES]?;
    for _ in 0..steps {
        counts[usize::from(machine.pc())] += 1;
        if is_last(&machine.step()) {
            return Ok(counts);
        }
    }
    Ok(counts)
}

// Runs an image from zeros, and counts at which address each of so many steps is done.
fn count_from_zeros(
    alloc: Global,
    image: &Image,
    ports: &Ports,
    steps: u64,
) -> Result<Vec<u64>, NoMemory>
    requires { steps ≤ 100000000 }
    ensures length { IfOk result (λ counts. vec_len counts ≡ 65536) }
    ensures counts { IfOk result (λ counts. AreTimes (reset (zero_start image.now.words) (of_sixteen (input_of ports.now))) steps counts.items) }
{
    let lines = Vec::from_slice(alloc, ports.lines())?;
    let start = Start::zero(alloc, image)?;
    let mut machine = Machine::new(alloc, start, Ports::new(lines))?;
    count_steps(alloc, &mut machine, steps)
}

// The counts at some addresses.
fn look_up(alloc: Global, table: &[u64], places: &[u16]) -> Result<Vec<u64>, NoMemory>
    requires { length table.now ≡ 65536 }
    ensures { IfOk result (λ counts. (s : State) (steps : ℕ) → AreTimes s steps table.now → counts.items ≡ map (times_at s steps) places.now) }
{
    let mut counts = Vec::new(alloc);
    for place in places {
        counts.push(table[usize::from(*place)])?;
    }
    Ok(counts)
}

/// How often the run of an image from zeros on what the ports are given does a step at each of these program addresses,
/// among its first steps, of which there are from 1 to 100,000,000. A step that ends the run or traps counts where it is
/// done, and nothing is counted behind it. Only the want of memory is refused.
pub fn entries(
    alloc: Global,
    image: &Image,
    places: &[u16],
    ports: &Ports,
    steps: u64,
) -> Result<Vec<u64>, NoMemory>
    requires { steps ≤ 100000000 }
    ensures counts { IfOk result (λ counts. counts.items ≡ map (entries_of image.now.words (of_sixteen (input_of ports.now)) steps) places.now) }
    ensures few { IfOk result (λ counts. All (λ count. count ≤ steps) counts.items) }
    // Each step is done at one place, so all counts together are no more than the steps where no place is given twice.
    ensures together { StandOnce places.now → IfOk result (λ counts. sum counts.items ≤ steps) }
{
    let table = count_from_zeros(alloc, image, ports, steps)?;
    look_up(alloc, &table, places)
}
