//! The objects of blocks, which live from the entry of a block until it's left: ISO 9899:1990 6.1.2.4.
ghost use Rattle.std.specs.Prelude.{◌≡◌, IfOk, OnOk, map, slice_get, option_to_list};
ghost use Rattle.c_tree.specs.Exec as exec;
ghost use Rattle.c_tree.specs.SourceRun as calls;
ghost use Rattle.c_tree.specs.Store.{Gives, give};
ghost use Rattle.c_tree.specs.View.{function_of};
ghost use Rattle.c_means.specs.Blocks.{fresh_of, numbers_of, put_back, flow_of, option_flow_of};
ghost use Rattle.c_means.specs.Frames.{env_in};
ghost use Rattle.c_means.specs.Turns as turns;
ghost use Rattle.c_state.specs.Values.{value_of, option_of};
ghost use Rattle.c_state.specs.Worlds.{world_of};

use crate::frame::Run;
use c_state::{Cells, Name, Names, State, Value};
use c_tree::{Function, ScalarType, VarRef};
use std::alloc::Global;
use word_base::NoMemory;

/// How a statement is left.
#[derive(Clone, Copy, PartialEq, Eq)]
pub(crate) enum Flow {
    Next,
    Broke,
    Continued,
    Returned(Option<Value>),
}

impl Flow {
    /// The value of a function whose body was left so: none, unless a return gave one.
    pub(crate) fn value(self) -> Option<Value>
        ensures { option_of result ≡ calls.result_of (flow_of self) }
    {
        match self {
            Flow::Returned(value) => value,
            Flow::Next | Flow::Broke | Flow::Continued => None,
        }
    }

    /// How the loop is left whose body was left so.
    pub(crate) fn of_loop(self) -> Option<Flow>
        ensures { option_flow_of result ≡ turns.left_by (flow_of self) }
    {
        match self {
            Flow::Next | Flow::Continued => None,
            Flow::Broke => Some(Flow::Next),
            Flow::Returned(value) => Some(Flow::Returned(value)),
        }
    }

    /// How the switch is left whose statements were left so: a break leaves the switch alone.
    pub(crate) fn of_switch(self) -> Flow
        ensures { exec.behind_switch (flow_of self) ≡ give (flow_of result) }
    {
        match self {
            Flow::Broke => Flow::Next,
            Flow::Next | Flow::Continued | Flow::Returned(_) => self,
        }
    }
}

/// A name of a block that is open.
#[derive(Clone, Copy, PartialEq, Eq)]
pub(crate) struct Opened {
    pub(crate) reference: VarRef,
    /// The object that it stands for in the block.
    pub(crate) object: Name,
    /// What it stood for before.
    pub(crate) before: Name,
}

/// An object that isn't made yet.
#[derive(Drop)]
struct Fresh {
    kind: ScalarType,
    cells: Cells,
}

// The object of a name, none of whose cells was written.
fn object_of(alloc: Global, f: &Function, reference: VarRef) -> Result<Option<Fresh>, NoMemory>
    ensures { IfOk result (λ made. fresh_of made ≡ exec.fresh (function_of f.now) reference) }
{
    match reference {
        VarRef::Scalar(n) => match f.scalars.as_slice().get(usize::from(n)) {
            Some(kind) => Ok(Some(Fresh {
                kind: *kind,
                cells: Cells::unset(alloc, 1)?,
            })),
            None => Ok(None),
        },
        VarRef::Local(n) => match f.locals.as_slice().get(n as usize) {
            Some(object) => Ok(Some(Fresh {
                kind: object.kind,
                cells: Cells::unset(alloc, object.length)?,
            })),
            None => Ok(None),
        },
        VarRef::Static(_) => Ok(None),
    }
}

// The object of a name is made.
fn declare(
    state: &mut State,
    run: &Run,
    names: &mut Names,
    reference: VarRef,
) -> Result<Option<Opened>, NoMemory>
    ensures declared { IfOk result (λ opened. exec.make_object (exec.fresh (function_of run.now.function.now) reference) reference (env_in run.now names.old) (world_of state.old) ≡ Gives (env_in run.now names.new, numbers_of (option_to_list opened)) (world_of state.new)) }
    ensures back { IfOk result (λ opened. put_back (env_in run.now names.new) (option_to_list opened) ≡ env_in run.now names.old) }
{
    let Some(fresh) = object_of(run.alloc, run.function, reference)? else {
        return Ok(None);
    };
    let before = names.find(reference);
    let object = state.store.make(fresh.kind, fresh.cells)?;
    names.set(reference, object)?;
    Ok(Some(Opened {
        reference,
        object,
        before,
    }))
}

/// Fresh objects for the names of a block.
pub(crate) fn enter(
    state: &mut State,
    run: &Run,
    names: &mut Names,
    declared: &[VarRef],
) -> Result<Vec<Opened>, NoMemory>
    ensures entered { IfOk result (λ opened. exec.enter declared.now (env_in run.now names.old) (world_of state.old) ≡ Gives (env_in run.now names.new, numbers_of opened.items) (world_of state.new)) }
    ensures back { IfOk result (λ opened. put_back (env_in run.now names.new) opened.items ≡ env_in run.now names.old) }
{
    let mut opened = Vec::new(run.alloc);
    for reference in declared {
        if let Some(one) = declare(state, run, names, *reference)? {
            opened.push(one)?;
        }
    }
    Ok(opened)
}

/// The objects of a block end, the last one first.
pub(crate) fn leave(state: &mut State, opened: &[Opened])
    ensures { exec.leave (numbers_of opened.now) (world_of state.old) ≡ Gives (tt {0}) (world_of state.new) }
{
    for one in opened.iter().rev() {
        state.store.finish(one.object);
    }
}

/// Each argument goes into the object of its parameter.
pub(crate) fn pass(
    state: &mut State,
    run: &Run,
    names: &Names,
    parameters: &[VarRef],
    arguments: &[Value],
)
    ensures { calls.pass parameters.now (map value_of arguments.now) (env_in run.now names.now) (world_of state.old) ≡ Gives (tt {0}) (world_of state.new) }
{
    for (parameter, value) in parameters.iter().zip(arguments) {
        state.store.set(names.find(*parameter), 0, *value);
    }
}

/// A local array gets its list.
pub(crate) fn fill(state: &mut State, run: &Run, names: &Names, number: u32) -> Result<(), NoMemory>
    ensures { OnOk result (exec.fill (slice_get (env_in run.now names.now).function.locals number) ((env_in run.now names.now).local number) (world_of state.old) ≡ Gives exec.Next (world_of state.new)) }
{
    if let Some(object) = run.function.locals.as_slice().get(number as usize) {
        let cells = Cells::listed(run.alloc, object)?;
        state.store.fill(names.find(VarRef::Local(number)), cells);
    }
    Ok(())
}

/// Each name of a block stands again for what it stood for before.
pub(crate) fn restore(run: &Run, names: &mut Names, opened: &[Opened]) -> Result<(), NoMemory>
    ensures { OnOk result (env_in run.now names.new ≡ put_back (env_in run.now names.old) opened.now) }
{
    for one in opened.iter().rev() {
        names.set(one.reference, one.before)?;
    }
    Ok(())
}
