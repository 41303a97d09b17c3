//! The line that refuses sources that aren't joined.
ghost use Rattle.std.specs.Prelude.{◌≡◌, IfOk, string_bytes};
ghost use Rattle.cc_text.specs.UnitText.{numbered_source, unit_line};

use crate::source_text::{lex_line, parse_line, place_line, too_many_line, type_line};
use c_units::UnitFault;
use std::alloc::Global;
use word_base::NoMemory;

// What tells one of several sources.
fn numbered_source(alloc: Global, file: u8) -> Result<String, NoMemory>
    ensures { IfOk result (λ text. string_bytes text ≡ numbered_source file) }
{
    Ok(format!(in alloc; "file {file}: ")?)
}

/// The line that refuses sources for what keeps them from being joined, with its line feed. Want of memory is no fault of them, and has
/// none.
pub fn unit_line(alloc: Global, fault: &UnitFault) -> Result<String, NoMemory>
    ensures { IfOk result (λ line. string_bytes line ≡ unit_line fault.now) }
{
    match fault {
        UnitFault::Lex { file, fault } => {
            lex_line(alloc, &numbered_source(alloc, *file)?, *fault)
        }
        UnitFault::Parse { file, fault } => {
            parse_line(alloc, &numbered_source(alloc, *file)?, *fault)
        }
        UnitFault::Types { file, fault } => {
            type_line(alloc, &numbered_source(alloc, *file)?, fault)
        }
        UnitFault::Reserved { file, at } => {
            place_line(alloc, &numbered_source(alloc, *file)?, "reserved name", *at)
        }
        UnitFault::Undefined { name } => {
            let name = name.as_str();
            Ok(format!(in alloc; "source refused: undefined {name}\n")?)
        }
        UnitFault::TooManyTokens { count } => too_many_line(alloc, "", "tokens", *count),
        UnitFault::NoMemory => Err(NoMemory),
    }
}
