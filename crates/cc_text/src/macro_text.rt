//! The line that refuses a source that has no expansion.
ghost use Rattle.std.specs.Prelude.{◌≡◌, IfOk, string_bytes};
ghost use Rattle.cc_text.specs.MacroText.{macro_line, macro_limit};

use crate::source_text::{lex_line, place_line, too_many_line};
use c_macro::{MacroFault, MacroLimit};
use std::alloc::Global;
use word_base::NoMemory;

fn macro_limit(which: MacroLimit) -> &'static str
    ensures { result.now ≡ macro_limit which }
{
    match which {
        MacroLimit::Tokens => "tokens",
        MacroLimit::Replacements => "replacements",
        MacroLimit::Macros => "macros",
    }
}

/// The line that refuses a source for a fault of its macros and sections, with its line feed. Want of memory is no fault of one, and has
/// none.
pub fn macro_line(alloc: Global, fault: MacroFault) -> Result<String, NoMemory>
    ensures { IfOk result (λ line. string_bytes line ≡ macro_line fault) }
{
    match fault {
        MacroFault::Lex(why) => lex_line(alloc, "", why),
        MacroFault::Directive { at } => place_line(alloc, "", "bad directive", at),
        MacroFault::Redefined { at } => place_line(alloc, "", "macro redefined", at),
        MacroFault::Unbalanced { at } => place_line(alloc, "", "unbalanced section", at),
        MacroFault::TooMany { what, count } => {
            too_many_line(alloc, "", macro_limit(what), u64::from(count))
        }
        MacroFault::NoMemory => Err(NoMemory),
    }
}
