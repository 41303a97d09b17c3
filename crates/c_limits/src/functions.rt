//! Functions of the typed program.
ghost use Rattle.std.specs.Prelude.{◌≡◌, ◌∷◌, List, IfOk, map};
ghost use Rattle.c_tree.specs.View.{function_of as tree_of, object_of};
ghost use Rattle.c_rules.specs.Programs as programs;
ghost use Rattle.c_rules.specs.Programs.{function_with, scalars_in, objects_in, local_object};
ghost use Rattle.c_rules.specs.Statements.{LocalTree};
ghost use Rattle.c_limits.specs.Storage.{with_scalars, with_objects};
ghost use Rattle.c_rules.specs.LocalView.{local_tree_of};
ghost use Rattle.c_limits.specs.FunctionView.{typed_function_of};

use crate::renumber::renumber;
use c_rules::{Local, ObjectType};
use c_tree::{Function, Object, ScalarType, TypedStmt, VarRef};
use std::alloc::Global;
use word_base::{Items, NoMemory, Text};

/// A function whose body is typed.
#[derive(Drop)]
pub struct TypedFunction {
    pub name: Text,
    /// The type of its value, or `None` for void.
    pub result: Option<ScalarType>,
    /// How many of its objects are its parameters, which come first.
    pub parameters: usize,
    pub locals: Vec<Local>,
    pub body: Box<TypedStmt>,
}

/// The function of a program, where it is known what each object stands for.
pub fn function_of(
    alloc: Global,
    mut references: Vec<VarRef>,
    mut f: TypedFunction,
) -> Result<Function, NoMemory>
    ensures { IfOk result (λ made. tree_of made ≡ function_with references.items (typed_function_of f)) }
{
    let storage = split(alloc, &references, f.locals)?;
    renumber(&references, &mut f.body);
    references.truncate(f.parameters);
    Ok(Function {
        name: f.name,
        result: f.result,
        params: Items::new(references),
        scalars: Items::new(storage.scalars),
        locals: Items::new(storage.objects),
        body: Box::into_inner(f.body),
    })
}

/// The types of frame scalars, and the other objects.
#[derive(Drop)]
pub(crate) struct Storage {
    scalars: Vec<ScalarType>,
    objects: Vec<Object>,
}

fn split(alloc: Global, references: &[VarRef], locals: Vec<Local>) -> Result<Storage, NoMemory>
    ensures scalars { IfOk result (λ storage. storage.scalars.items ≡ scalars_in references.now (map local_tree_of locals.items)) }
    ensures objects { IfOk result (λ storage. map object_of storage.objects.items ≡ objects_in references.now (map local_tree_of locals.items)) }
{
    let mut storage = Storage {
        scalars: Vec::new(alloc),
        objects: Vec::new(alloc),
    };
    let mut rest = locals.into_iter();
    for reference in references {
        let Some(local) = rest.next() else {
            return Ok(storage);
        };
        storage.add(*reference, local)?;
    }
    Ok(storage)
}

impl Storage {
    fn add(&mut self, reference: VarRef, local: Local) -> Result<(), NoMemory>
        ensures scalars { IfOk result (λ _. (rs : List VarRef) (ls : List LocalTree) → with_scalars self.new rs ls ≡ with_scalars self.old (reference ∷ rs) (local_tree_of local ∷ ls)) }
        ensures objects { IfOk result (λ _. (rs : List VarRef) (ls : List LocalTree) → with_objects self.new rs ls ≡ with_objects self.old (reference ∷ rs) (local_tree_of local ∷ ls)) }
    {
        match reference {
            VarRef::Scalar(_) => {
                let kind = cell_kind(local.object_type);
                drop(local);
                self.scalars.push(kind)?;
            }
            VarRef::Local(_) => self.objects.push(object(local))?,
            VarRef::Static(_) => drop(local),
        }
        Ok(())
    }
}

fn object(local: Local) -> Object
    ensures { object_of result ≡ local_object (local_tree_of local) }
{
    Object {
        name: local.name,
        length: cell_count(local.object_type),
        kind: cell_kind(local.object_type),
        initial: local.values,
    }
}

fn cell_kind(object_type: ObjectType) -> ScalarType
    ensures { result ≡ programs.cell_kind object_type }
{
    match object_type {
        ObjectType::Single(kind) | ObjectType::Array { kind, .. } => kind,
    }
}

fn cell_count(object_type: ObjectType) -> u16
    ensures { result ≡ programs.cell_count object_type }
{
    match object_type {
        ObjectType::Single(_) => 1,
        ObjectType::Array { length, .. } => length,
    }
}
