//! The objects that the names of a function stand for.
ghost use Rattle.std.specs.Prelude.{◌≡◌, ◌≤◌, ◌==◌, if◌then◌else◌, vec_len, OnOk};
ghost use Rattle.c_tree.specs.TypedTree.{FunctionTree};
ghost use Rattle.c_tree.specs.Eval.{object_number};
ghost use Rattle.c_tree.specs.Exec.{named};
ghost use Rattle.c_tree.specs.SourceRun.{nothing_named};
ghost use Rattle.c_state.specs.Names.{env_of, numbers_in};

use crate::value::Name;
use c_tree::VarRef;
use std::alloc::Global;
use word_base::NoMemory;

/// What a name stands for before its block is entered.
const FIRST: Name = Name {
    number: 0,
    place: 0,
};

/// The objects of a function's names, by their numbers in the function.
#[derive(Drop)]
pub struct Names {
    scalars: Vec<Name>,
    locals: Vec<Name>,
}

impl Names {
    /// No name stands for an object yet.
    pub fn new(alloc: Global) -> Self
        ensures { (f : FunctionTree) → env_of f result ≡ nothing_named f }
    {
        Names {
            scalars: Vec::new(alloc),
            locals: Vec::new(alloc),
        }
    }

    /// The object that a name stands for.
    pub fn find(&self, reference: VarRef) -> Name
        ensures { (f : FunctionTree) → object_number (env_of f self.now) reference ≡ result.number }
    {
        match reference {
            VarRef::Scalar(n) => name_at(&self.scalars, usize::from(n)),
            VarRef::Local(n) => name_at(&self.locals, n as usize),
            VarRef::Static(n) => static_name(n),
        }
    }

    /// From here on the name stands for this object.
    pub fn set(&mut self, reference: VarRef, object: Name) -> Result<(), NoMemory>
        ensures { OnOk result ((f : FunctionTree) → env_of f self.new ≡ named (env_of f self.old) reference object.number) }
    {
        match reference {
            VarRef::Scalar(n) => put(&mut self.scalars, u32::from(n), object),
            VarRef::Local(n) => put(&mut self.locals, n, object),
            VarRef::Static(_) => Ok(()),
        }
    }
}

/// A static object: these are made first, in order, and live as long as the run.
pub(crate) fn static_name(number: u32) -> Name
    ensures { result.number ≡ number }
{
    Name {
        number: u64::from(number),
        place: number as usize,
    }
}

fn name_at(names: &[Name], n: usize) -> Name
    ensures { result.number ≡ numbers_in names.now n }
{
    match names.get(n) {
        Some(name) => *name,
        None => FIRST,
    }
}

fn put(names: &mut Vec<Name>, number: u32, object: Name) -> Result<(), NoMemory>
    ensures { OnOk result (numbers_in names.new.items ≡ (λ k. if k == number then object.number else numbers_in names.old.items k)) }
{
    let n = number as usize;
    lengthen(names, n + 1)?;
    names[n] = object;
    Ok(())
}

// At least so many names. The new ones stand for nothing yet.
fn lengthen(names: &mut Vec<Name>, length: usize) -> Result<(), NoMemory>
    ensures numbers { OnOk result (numbers_in names.new.items ≡ numbers_in names.old.items) }
    ensures length { OnOk result (length ≤ vec_len names.new) }
{
    if names.len() < length {
        names.resize(length, FIRST)?;
    }
    Ok(())
}
