//! The check of a whole source, and its typed program.
ghost use Rattle.std.specs.Prelude.{◌≡◌, map, All, IfOk, IfErr};
ghost use Rattle.c_tree.specs.ProgramView.{program_of};
ghost use Rattle.c_tree.specs.View.{function_of as function_view, object_of};
ghost use Rattle.c_syntax.specs.SyntaxView.{unit_of};
ghost use Rattle.c_tree.specs.Placed.{FunctionIsPlaced};
ghost use Rattle.c_tree.specs.TypedOfWords.{ProgramHasWords};
ghost use Rattle.c_tree.specs.WellFormedProgram.{IsProgram};
ghost use Rattle.c_rules.specs.Checked.{IsTyped};
ghost use Rattle.c_rules.specs.Faults.{Says};
ghost use Rattle.c_rules.specs.Programs.{functions_with, object_tree};
ghost use Rattle.c_limits.specs.FunctionView.{frame_lists, typed_function_of};
ghost use Rattle.c_types.specs.View.{made_of};
ghost use Rattle.c_scopes.specs.c_names.Statics.{static_tree_of};

use crate::units::{Contents, File};
use c_limits::{TypedFunction, frames_of, function_of};
use c_rules::{ObjectType, TypeFault};
use c_scopes::Static;
use c_syntax::Unit;
use c_tree::{Function, Object, Program, VarRef};
use std::alloc::Global;
use word_base::{Items, NoMemory};

/// The typed program of a tree, or the first fault: that of the first node in walking order that breaks a rule of ISO 9899:1990
/// 6.1 to 6.7, as docs/LANGUAGE.md, "Types", has them, and then what is wanted of the whole source.
pub fn check(alloc: Global, unit: &Unit) -> Result<Program, TypeFault>
    ensures typed { IfOk result (λ p. IsTyped (unit_of unit.now) (program_of p)) }
    ensures refused { IfErr result (Says (unit_of unit.now)) }
{
    c_types_proof::typed_programs_are_placed();
    c_types_proof::typed_programs_are_of_words();
    let file = File::of(alloc, unit.externals())?;
    let frames = frames_of(alloc, &file.functions)?;
    Ok(program(alloc, file.contents(), frames)?)
}

// The program of a source whose functions' objects are known.
fn program(alloc: Global, contents: Contents, frames: Vec<Vec<VarRef>>) -> Result<Program, NoMemory>
    requires well_formed { IsProgram (made_of frames.items contents) }
    requires placed { All FunctionIsPlaced (made_of frames.items contents).functions }
    requires words { ProgramHasWords (made_of frames.items contents) }
    ensures { IfOk result (λ p. program_of p ≡ made_of frames.items contents) }
{
    Ok(Program {
        statics: Items::new(objects(alloc, contents.statics)?),
        functions: Items::new(functions(alloc, contents.functions, frames)?),
    })
}

fn objects(alloc: Global, statics: Vec<Static>) -> Result<Vec<Object>, NoMemory>
    ensures { IfOk result (λ made. map object_of made.items ≡ map object_tree (map static_tree_of statics.items)) }
{
    let mut objects = Vec::new(alloc);
    for object in statics {
        objects.push(static_object(alloc, object))?;
    }
    Ok(objects)
}

fn static_object(alloc: Global, object: Static) -> Object
    ensures { object_of result ≡ object_tree (static_tree_of object) }
{
    let (kind, length) = match object.object_type {
        ObjectType::Single(kind) => (kind, 1),
        ObjectType::Array { kind, length } => (kind, length),
    };
    Object {
        name: object.name,
        length,
        kind,
        initial: match object.initial {
            Some(list) => list,
            None => Items::new(Vec::new(alloc)),
        },
    }
}

fn functions(
    alloc: Global,
    typed: Vec<TypedFunction>,
    frames: Vec<Vec<VarRef>>,
) -> Result<Vec<Function>, NoMemory>
    ensures { IfOk result (λ made. map function_view made.items ≡ functions_with (frame_lists frames.items) (map typed_function_of typed.items)) }
{
    let mut functions = Vec::new(alloc);
    let mut rest = frames.into_iter();
    for f in typed {
        let Some(references) = rest.next() else {
            return Ok(functions);
        };
        functions.push(function_of(alloc, references, f)?)?;
    }
    Ok(functions)
}
