//! The run of a program: ISO 9899:1990 5.1.2.1.
ghost use Rattle.std.specs.Prelude.{◌≡◌, All, IfOk, map, option_map};
ghost use Rattle.std.specs.Str.{bytes_eq};
ghost use Rattle.word_base.specs.Ports.{input_of};
ghost use Rattle.c_tree.specs.ProgramView.{program_of};
ghost use Rattle.c_tree.specs.View.{function_of, object_of};
ghost use Rattle.c_tree.specs.SourceRun as calls;
ghost use Rattle.c_tree.specs.SourceRun.{source_run};
ghost use Rattle.c_means.specs.Runs.{IsOutcome, main_run, statics_of};
ghost use Rattle.c_state.specs.Room.{HasRoom};
ghost use Rattle.c_state.specs.Stores.{store_of};
ghost use Rattle.c_state.specs.Values.{option_of};
ghost use Rattle.c_state.specs.Worlds.{world_of, ComesTo};

use crate::frame::Run;
use crate::statements::body;
use c_state::{Cells, Inputs, State, Stop, Store, Value};
use c_tree::{Function, Object, Program};
use std::alloc::Global;
use word_base::{Ending, NoMemory, Outcome, Outs, PortWord, Ports};

/// What a program does on an input, where each execution of each loop makes at most so many turns: a run that would begin a turn past
/// that number goes on. It fails where an allocation fails, and where 2^64 objects are made.
pub fn evaluate(
    alloc: Global,
    program: &Program,
    ports: &Ports,
    turns: u32,
) -> Result<Outcome, NoMemory>
    ensures { IfOk result (λ outcome. outcome ≡ source_run (program_of program.now) (input_of ports.now) turns) }
{
    let mut state = start(alloc, program, ports)?;
    let end = run_main(alloc, program, turns, &mut state);
    outcome(end, state.outs)
}

// What is known at the start of a run.
fn start(alloc: Global, program: &Program, ports: &Ports) -> Result<State, NoMemory>
    ensures { IfOk result (λ state. world_of state ≡ calls.first_world (program_of program.now) (input_of ports.now)) }
{
    Ok(State {
        store: statics(alloc, program.statics.as_slice())?,
        inputs: Inputs::new(alloc, ports)?,
        outs: Vec::new(alloc),
    })
}

// The static objects at the start of a run.
fn statics(alloc: Global, objects: &[Object]) -> Result<Store, NoMemory>
    requires { All (λ o. HasRoom (object_of o)) objects.now }
    ensures { IfOk result (λ store. store_of store ≡ statics_of (map object_of objects.now)) }
{
    let mut store = Store::new(alloc);
    for object in objects {
        let cells = Cells::listed(alloc, object)?;
        store.make(object.kind, cells)?;
    }
    Ok(store)
}

// The call of `main`. No function calls itself, so calls are nested at most as deep as there are functions.
fn run_main(
    alloc: Global,
    program: &Program,
    turns: u32,
    state: &mut State,
) -> Result<Option<Value>, Stop>
    ensures { ComesTo option_of (main_run (program_of program.now) turns (world_of state.old)) state.new result }
{
    let functions = program.functions.as_slice();
    let Some(function) = main_of(functions) else {
        return Err(Stop::More);
    };
    let run = Run {
        alloc,
        program,
        function,
        turns,
        depth: functions.len(),
    };
    body(state, &run, &[])
}

// The function that runs first.
fn main_of(functions: &[Function]) -> Option<&Function>
    ensures { option_map (λ f. function_of f.now) result ≡ calls.main_of (map function_of functions.now) }
{
    functions.iter().find(|f| is_main(f))
}

fn is_main(function: &Function) -> bool
    ensures { result ≡ bytes_eq function.now.name calls.main_name }
{
    function.name.as_str() == "main"
}

// What a run came to that ended so, behind its outputs.
fn outcome(end: Result<Option<Value>, Stop>, outs: Vec<PortWord>) -> Result<Outcome, NoMemory>
    ensures { IfOk result (λ o. IsOutcome end outs.items o) }
{
    let outs = Outs::new(outs);
    match end {
        Ok(Some(Value::Word(word))) => Ok(Outcome::Ended {
            outs,
            ending: Ending::Returned(word),
        }),
        Ok(_) => Ok(Outcome::Ended {
            outs,
            ending: Ending::Returned(0),
        }),
        Err(Stop::Ended(ending)) => Ok(Outcome::Ended { outs, ending }),
        Err(Stop::More) => Ok(Outcome::More { outs }),
        Err(Stop::Undefined { kind, at }) => Ok(Outcome::Undefined { outs, kind, at }),
        Err(Stop::NoMemory) => Err(NoMemory),
    }
}
