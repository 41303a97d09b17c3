//! `join OUT SRC..`.
ghost use Rattle.std.specs.Prelude.{◌≡◌, ◌≢◌, ◌<◌, ◌≤◌, ◌^◌, length, All, IfOk, OnOk, IfErr};
ghost use Rattle.cc_words.specs.Asked.{ToJoin, names_of};
ghost use Rattle.cc_words.specs.Bounds.{IsWithinBounds};
ghost use Rattle.cc_files.specs.cc_text.Refusals.{why_of, OfMemory};
ghost use Rattle.cc_answers.specs.Answers.{answered};
ghost use Rattle.cc_files.specs.World.{shelves};
ghost use Rattle.cc_files.specs.Wants.{contents_of};
ghost use Rattle.cc_files.specs.Fetches.{AllFetched, NoneFailed, NotFetched};
ghost use Rattle.cc_files.specs.Stores.{NothingStored, OnlyUnder};
ghost use Rattle.cc_driver.specs.Texts.{one_text, silent_answer};
ghost use Rattle.cc_driver.specs.Join.{JoinsTo, JoinRefused};
ghost use Rattle.cc_driver.specs.Commands.{files_of, stores_under};
ghost use Rattle.cc_driver.specs.Work.{WorkDone, WorkRefused};

use cc_answers::Answer;
use cc_files::{Refusal, SOURCE_LIMIT, fetch_all, join_text, store};
use cc_shelf::Shelf;
use cc_words::Join;
use std::alloc::Global;

// The sources, in their order.
fn fetched<'a, F: Shelf>(
    alloc: Global,
    asked: &Join<'a>,
    shelf: &mut F,
) -> Result<Vec<Vec<u8>>, Refusal<'a>>
    requires bounds { IsWithinBounds (ToJoin asked.now.output.now (names_of asked.now.sources)) }
    ensures fetched { IfOk result (λ files. AllFetched (shelves F.tells (F.stock shelf.old) (F.stock shelf.new)) (files_of (ToJoin asked.now.output.now (names_of asked.now.sources))) (contents_of files.items)) }
    ensures asked { OnOk result (NoneFailed (shelves F.tells (F.stock shelf.old) (F.stock shelf.new)) (files_of (ToJoin asked.now.output.now (names_of asked.now.sources)))) }
    ensures refused { IfErr result (λ r. NotFetched (shelves F.tells (F.stock shelf.old) (F.stock shelf.new)) (files_of (ToJoin asked.now.output.now (names_of asked.now.sources))) (why_of r)) }
    ensures stored { NothingStored (shelves F.tells (F.stock shelf.old) (F.stock shelf.new)) }
    ensures some { IfOk result (λ files. 1 ≤ length files.items) }
    ensures few { IfOk result (λ files. length files.items ≤ 16) }
    ensures short { IfOk result (λ files. All (λ file. length file.items < 2 ^ 32) files.items) }
{
    fetch_all(alloc, shelf, &asked.sources, SOURCE_LIMIT)
}

// The text of the sources, joined.
fn joined<'a>(alloc: Global, asked: &Join<'a>, sources: &[Vec<u8>]) -> Result<Vec<u8>, Refusal<'a>>
    requires some { 1 ≤ length sources.now }
    requires few { length sources.now ≤ 16 }
    requires short { All (λ source. length source.items < 2 ^ 32) sources.now }
    ensures done { IfOk result (λ text. JoinsTo asked.now.output.now (contents_of sources.now) silent_answer (one_text asked.now.output.now text.items)) }
    // A refusal has its cause, unless memory is wanting.
    ensures refused { IfErr result (λ r. why_of r ≢ OfMemory → JoinRefused (contents_of sources.now) (why_of r)) }
{
    Ok(join_text(alloc, sources)?)
}

/// Joins sources, and stores the text of what comes of them.
pub(crate) fn answer<'a, F: Shelf>(
    alloc: Global,
    asked: &Join<'a>,
    shelf: &mut F,
) -> Result<Answer, Refusal<'a>>
    requires bounds { IsWithinBounds (ToJoin asked.now.output.now (names_of asked.now.sources)) }
    ensures done { IfOk result (λ a. WorkDone (ToJoin asked.now.output.now (names_of asked.now.sources)) (shelves F.tells (F.stock shelf.old) (F.stock shelf.new)) (answered a)) }
    ensures ends { IfOk result (λ a. (answered a).status ≡ 0) }
    ensures refused { IfErr result (λ r. WorkRefused (ToJoin asked.now.output.now (names_of asked.now.sources)) (shelves F.tells (F.stock shelf.old) (F.stock shelf.new)) (why_of r)) }
    ensures others { OnlyUnder (stores_under (ToJoin asked.now.output.now (names_of asked.now.sources))) (shelves F.tells (F.stock shelf.old) (F.stock shelf.new)) }
{
    let sources = fetched(alloc, asked, shelf)?;
    let text = joined(alloc, asked, &sources)?;
    store(alloc, shelf, asked.output, &text)?;
    Ok(Answer {
        text: None,
        status: 0,
    })
}
