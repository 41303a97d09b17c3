//! Typed programs as programs on words.
ghost use Rattle.std.specs.Prelude.{◌≡◌, ◌≤◌, ◌+◌, length, map, All, IfOk};
ghost use Rattle.c_tree.specs.declared.limits.TheConstants.{MOST_FRAME_SCALARS};
ghost use Rattle.c_tree.specs.View as typed;
ghost use Rattle.c_tree.specs.View.{object_of};
ghost use Rattle.c_tree.specs.ProgramView.{program_of};
ghost use Rattle.tree_code.specs.ProgramView.{tree_of};
ghost use Rattle.tree_code.specs.Lowered.{HasFewScalars, lowered_function, lowered_program};
ghost use Rattle.c_tree.specs.TypedOfWords.{StartsWithWords, FunctionHasWords, ProgramHasWords};
ghost use Rattle.tree_code.specs.WordTree.{code};
ghost use Rattle.tree_code.specs.WellFormedCode.{IsCode};
ghost use Rattle.tree_code.specs.WordTemporaries.{word_statement_temporaries};
ghost use Rattle.tree_code.specs.WordView.{function_code_of, word_stmt_of};

use crate::copies::{copied_name, copied_objects, copied_references};
use crate::counting::temporaries;
use crate::program::{TreeFunction, TreeProgram};
use crate::statements::lowered_body;
use crate::word_statement::WordStmt;
use c_tree::{Function, Object, Program, ScalarType};
use std::alloc::Global;
use word_base::{Items, NoMemory};

/// The word tree of a program. It fails only where an allocation fails.
pub fn lower(alloc: Global, program: &Program) -> Result<TreeProgram, NoMemory>
    ensures tree { IfOk result (λ t. tree_of t ≡ lowered_program (program_of program.now)) }
    ensures words { IfOk result (λ _. ProgramHasWords (program_of program.now)) }
{
    let functions = functions(alloc, program.functions.as_slice())?;
    let statics = copied_objects(alloc, program.statics.as_slice())?;
    Ok(of_parts(statics, functions))
}

fn of_parts(statics: Items<Object>, functions: Items<TreeFunction>) -> TreeProgram
    requires { ∥ IsCode (code (map object_of statics) (map function_code_of functions)) ∥₁ }
    ensures { tree_of result ≡ code (map object_of statics) (map function_code_of functions) }
{
    TreeProgram { statics, functions }
}

fn functions(alloc: Global, list: &[Function]) -> Result<Items<TreeFunction>, NoMemory>
    requires { All (λ f. HasFewScalars (typed.function_of f)) list.now }
    ensures tree { IfOk result (λ all. map function_code_of all ≡ map lowered_function (map typed.function_of list.now)) }
    ensures words { IfOk result (λ _. All FunctionHasWords (map typed.function_of list.now)) }
{
    let mut all = Vec::new(alloc);
    for f in list {
        all.push(function(alloc, f)?)?;
    }
    Ok(Items::new(all))
}

fn function(alloc: Global, f: &Function) -> Result<TreeFunction, NoMemory>
    requires { HasFewScalars (typed.function_of f.now) }
    ensures tree { IfOk result (λ t. function_code_of t ≡ lowered_function (typed.function_of f.now)) }
    ensures words { IfOk result (λ _. FunctionHasWords (typed.function_of f.now)) }
{
    let body = lowered_body(alloc, &f.body)?;
    with_body(alloc, f, body)
}

fn with_body(alloc: Global, f: &Function, body: WordStmt) -> Result<TreeFunction, NoMemory>
    requires { length f.now.scalars + word_statement_temporaries (word_stmt_of body) ≤ MOST_FRAME_SCALARS }
    ensures tree { IfOk result (λ t. function_code_of t ≡ record { name = f.now.name; scalars = length f.now.scalars + word_statement_temporaries (word_stmt_of body); params = f.now.params; locals = map typed.object_of f.now.locals; body = word_stmt_of body }) }
    ensures words { IfOk result (λ _. StartsWithWords (map typed.object_of f.now.locals)) }
{
    let name = copied_name(alloc, &f.name)?;
    let params = copied_references(alloc, f.params.as_slice())?;
    let locals = copied_objects(alloc, f.locals.as_slice())?;
    Ok(TreeFunction {
        name,
        scalars: scalars(f.scalars.as_slice(), &body),
        params,
        locals,
        body,
    })
}

// The scalars of a frame: those of the source and the temporaries.
fn scalars(named: &[ScalarType], body: &WordStmt) -> u8
    requires { length named.now + word_statement_temporaries (word_stmt_of body.now) ≤ MOST_FRAME_SCALARS }
    ensures { result ≡ length named.now + word_statement_temporaries (word_stmt_of body.now) }
{
    named.len() as u8 + temporaries(body)
}
