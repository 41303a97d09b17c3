//! What the words ask for.
ghost use Rattle.std.specs.Prelude.{◌≡◌, IfOk, option_map};
ghost use Rattle.cc_words.specs.Asked.{app_of_name, asked, asked_to, rows_ask, texts_of, told};

use crate::asm::Asm;
use crate::build::Build;
use crate::check::Check;
use crate::debug::Debug;
use crate::dis::Dis;
use crate::exec::Exec;
use crate::generated::Gen;
use crate::join::Join;
use crate::layout::Layout;
use crate::means::Means;
use crate::name::Name;
use crate::pbuild::Pbuild;
use crate::pre::Pre;
use crate::run::Run;
use cc_options::read;
use std::alloc::Global;
use word_base::NoMemory;

/// What is asked for, by command.
#[derive(Drop)]
pub enum Request<'a> {
    Build(Build<'a>),
    Run(Run<'a>),
    Means(Means<'a>),
    Exec(Exec<'a>),
    Layout(Layout<'a>),
    Check(Check<'a>),
    Asm(Asm<'a>),
    Dis(Dis<'a>),
    Gen(Gen),
    Debug(Debug<'a>),
    Pre(Pre<'a>),
    Join(Join<'a>),
    Pbuild(Pbuild<'a>),
}

// What the words of a command ask for, of which the first is its name.
fn asked_by<'a>(
    alloc: Global,
    name: Name,
    words: &'a [String],
) -> Result<Option<Request<'a>>, NoMemory>
    ensures { IfOk result (λ r. option_map told r ≡ asked_to (app_of_name name) (rows_ask name) (texts_of words.entry.now)) }
{
    match read(alloc, &name.table(), words)? {
        Some(given) => Ok(name.found(given)),
        None => Ok(None),
    }
}

/// What the words behind the program's name ask for, or `None` where they are refused. The first
/// word chooses the command.
pub fn requested<'a>(alloc: Global, words: &'a [String]) -> Result<Option<Request<'a>>, NoMemory>
    ensures { IfOk result (λ r. option_map told r ≡ asked (texts_of words.entry.now)) }
{
    let Some(word) = words.first() else {
        return Ok(None);
    };
    match Name::of(word.as_str()) {
        Some(name) => asked_by(alloc, name, words),
        None => Ok(None),
    }
}
