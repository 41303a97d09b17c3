//! `pre SRC OUT`.
ghost use Rattle.std.specs.Prelude.{◌≡◌, ◌≢◌, ◌<◌, ◌^◌, length, IfOk, IfErr};
ghost use Rattle.cc_words.specs.Asked.{ToExpand};
ghost use Rattle.cc_files.specs.cc_text.Refusals.{why_of, OfMemory};
ghost use Rattle.cc_answers.specs.Answers.{answered};
ghost use Rattle.cc_files.specs.World.{shelves};
ghost use Rattle.cc_driver.specs.Texts.{one_text, silent_answer};
ghost use Rattle.cc_driver.specs.Pre.{ExpandsTo, ExpandRefused};
ghost use Rattle.cc_driver.specs.Commands.{stores_under};
ghost use Rattle.cc_files.specs.Stores.{OnlyUnder};
ghost use Rattle.cc_driver.specs.Work.{WorkDone, WorkRefused};

use cc_answers::Answer;
use cc_files::{
    Refusal, SOURCE_LIMIT, expand, expansions_have_spellings, fetch, store, token_text,
};
use cc_shelf::Shelf;
use cc_words::Pre;
use std::alloc::Global;

// The text of the tokens to which a source expands.
fn expanded<'a>(alloc: Global, asked: &Pre<'a>, source: &[u8]) -> Result<Vec<u8>, Refusal<'a>>
    requires short { length source.now < 2 ^ 32 }
    ensures done { IfOk result (λ text. ExpandsTo asked.now.output.now source.now silent_answer (one_text asked.now.output.now text.items)) }
    // A refusal has its cause, unless memory is wanting.
    ensures refused { IfErr result (λ r. why_of r ≢ OfMemory → ExpandRefused source.now (why_of r)) }
{
    let tokens = expand(alloc, source)?;
    expansions_have_spellings();
    Ok(token_text(alloc, &tokens)?)
}

/// Expands the macros and sections of a source, and stores the text of what comes of them.
pub(crate) fn answer<'a, F: Shelf>(
    alloc: Global,
    asked: &Pre<'a>,
    shelf: &mut F,
) -> Result<Answer, Refusal<'a>>
    ensures done { IfOk result (λ a. WorkDone (ToExpand asked.now.source.now asked.now.output.now) (shelves F.tells (F.stock shelf.old) (F.stock shelf.new)) (answered a)) }
    ensures ends { IfOk result (λ a. (answered a).status ≡ 0) }
    ensures refused { IfErr result (λ r. WorkRefused (ToExpand asked.now.source.now asked.now.output.now) (shelves F.tells (F.stock shelf.old) (F.stock shelf.new)) (why_of r)) }
    ensures others { OnlyUnder (stores_under (ToExpand asked.now.source.now asked.now.output.now)) (shelves F.tells (F.stock shelf.old) (F.stock shelf.new)) }
{
    let source = fetch(alloc, shelf, asked.source, SOURCE_LIMIT)?;
    let text = expanded(alloc, asked, &source)?;
    store(alloc, shelf, asked.output, &text)?;
    Ok(Answer {
        text: None,
        status: 0,
    })
}
