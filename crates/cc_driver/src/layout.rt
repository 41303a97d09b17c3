//! `layout SEQ [-r N] [--budget B]`.
ghost use Rattle.std.specs.Prelude.{◌≢◌, ◌≤◌, IfOk, IfErr};
ghost use Rattle.cc_words.specs.Asked.{ToLayOut};
ghost use Rattle.cc_files.specs.cc_text.Refusals.{why_of, OfMemory};
ghost use Rattle.cc_answers.specs.Answers.{answered};
ghost use Rattle.cc_files.specs.World.{shelves};
ghost use Rattle.cc_driver.specs.Layout.{LaysOutTo, LayoutRefused};
ghost use Rattle.cc_files.specs.Stores.{NothingStored};
ghost use Rattle.cc_driver.specs.Work.{WorkDone, WorkRefused};

use cc_answers::{Answer, layout_answer};
use cc_files::{Refusal, SEQUENCE_LIMIT, fetch};
use cc_shelf::Shelf;
use cc_words::Layout;
use lay_search::search;
use lay_text::read_sequence;
use std::alloc::Global;

// Searches a layout for the sequence that bytes say.
fn searched<'a>(alloc: Global, asked: &Layout<'a>, bytes: &[u8]) -> Result<Answer, Refusal<'a>>
    requires { 1 ≤ asked.now.registers }
    ensures done { IfOk result (λ a. LaysOutTo bytes.now asked.now.registers asked.now.budget (answered a)) }
    // A refusal has its cause, unless memory is wanting.
    ensures refused { IfErr result (λ r. why_of r ≢ OfMemory → LayoutRefused asked.now.sequence.now bytes.now (why_of r)) }
{
    let sequence = match read_sequence(alloc, bytes) {
        Ok(sequence) => sequence,
        Err(fault) => return Err(Refusal::of_sequence(asked.sequence, fault)),
    };
    let found = search(alloc, &sequence, asked.registers, asked.budget)?;
    Ok(layout_answer(alloc, &found)?)
}

/// Searches a layout.
pub(crate) fn answer<'a, F: Shelf>(
    alloc: Global,
    asked: &Layout<'a>,
    shelf: &mut F,
) -> Result<Answer, Refusal<'a>>
    requires { 1 ≤ asked.now.registers }
    ensures done { IfOk result (λ a. WorkDone (ToLayOut asked.now.sequence.now asked.now.registers asked.now.budget) (shelves F.tells (F.stock shelf.old) (F.stock shelf.new)) (answered a)) }
    ensures refused { IfErr result (λ r. WorkRefused (ToLayOut asked.now.sequence.now asked.now.registers asked.now.budget) (shelves F.tells (F.stock shelf.old) (F.stock shelf.new)) (why_of r)) }
    ensures stored { NothingStored (shelves F.tells (F.stock shelf.old) (F.stock shelf.new)) }
{
    let bytes = fetch(alloc, shelf, asked.sequence, SEQUENCE_LIMIT)?;
    searched(alloc, asked, &bytes)
}
