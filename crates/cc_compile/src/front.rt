//! The typed program of a source.
ghost use Rattle.std.specs.Prelude.{◌<◌, ◌^◌, ◌≢◌, length, IfOk, IfErr};
ghost use Rattle.c_tree.specs.ProgramView.{program_of};
ghost use Rattle.cc_compile.specs.declared.fault.BuildFault.TheVariants as faults;
ghost use Rattle.cc_compile.specs.SourceFaults.{HasProgram, HasNoProgramFor};

use crate::BuildFault;
use c_lexer::lex;
use c_parser::parse;
use c_tree::Program;
use c_types::check;
use std::alloc::Global;

/// The typed program of a source of less than 2^32 bytes, or the first fault of its tokens, its syntax or its types, in this
/// order.
pub fn typed_program(alloc: Global, source: &[u8]) -> Result<Program, BuildFault>
    requires short { length source.now < 2 ^ 32 }
    ensures typed { IfOk result (λ program. HasProgram source.now (program_of program)) }
    // A refusal has its cause, unless memory is wanting.
    ensures refused { IfErr result (λ why. why ≢ faults.NoMemory → HasNoProgramFor why source.now) }
{
    let tokens = lex(alloc, source)?;
    let unit = parse(alloc, &tokens)?;
    Ok(check(alloc, &unit)?)
}
