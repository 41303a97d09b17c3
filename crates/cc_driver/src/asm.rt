//! `asm TEXT IMG`.
ghost use Rattle.std.specs.Prelude.{◌≡◌, ◌≢◌, IfOk, IfErr};
ghost use Rattle.cc_words.specs.Asked.{ToAssemble};
ghost use Rattle.cc_files.specs.cc_text.Refusals.{why_of, OfMemory};
ghost use Rattle.cc_answers.specs.Answers.{answered};
ghost use Rattle.cc_files.specs.World.{shelves};
ghost use Rattle.cc_driver.specs.Asm.{AssemblesTo, AssembleRefused};
ghost use Rattle.cc_driver.specs.Texts.{one_text, silent_answer};
ghost use Rattle.cc_driver.specs.Commands.{stores_under};
ghost use Rattle.cc_files.specs.Stores.{OnlyUnder};
ghost use Rattle.cc_driver.specs.Work.{WorkDone, WorkRefused};

use c25_asm::assemble;
use c25_image::write_image;
use c25_isa::Image;
use cc_answers::Answer;
use cc_files::{Refusal, TEXT_LIMIT, fetch, store};
use cc_shelf::Shelf;
use cc_words::Asm;
use std::alloc::Global;

// The text of the image to which bytes are assembled.
fn assembled<'a>(alloc: Global, asked: &Asm<'a>, bytes: &[u8]) -> Result<Vec<u8>, Refusal<'a>>
    ensures done { IfOk result (λ image. AssemblesTo asked.now.image.now bytes.now silent_answer (one_text asked.now.image.now image.items)) }
    // A refusal has its cause, unless memory is wanting.
    ensures refused { IfErr result (λ r. why_of r ≢ OfMemory → AssembleRefused asked.now.text.now bytes.now (why_of r)) }
{
    let words = match assemble(alloc, bytes) {
        Ok(words) => words,
        Err(fault) => return Err(Refusal::of_assembly(asked.text, fault)),
    };
    let image = Image::new(words, Vec::new(alloc));
    Ok(write_image(alloc, &image)?)
}

/// Assembles a text, and stores its image.
pub(crate) fn answer<'a, F: Shelf>(
    alloc: Global,
    asked: &Asm<'a>,
    shelf: &mut F,
) -> Result<Answer, Refusal<'a>>
    ensures done { IfOk result (λ a. WorkDone (ToAssemble asked.now.text.now asked.now.image.now) (shelves F.tells (F.stock shelf.old) (F.stock shelf.new)) (answered a)) }
    ensures ends { IfOk result (λ a. (answered a).status ≡ 0) }
    ensures refused { IfErr result (λ r. WorkRefused (ToAssemble asked.now.text.now asked.now.image.now) (shelves F.tells (F.stock shelf.old) (F.stock shelf.new)) (why_of r)) }
    ensures others { OnlyUnder (stores_under (ToAssemble asked.now.text.now asked.now.image.now)) (shelves F.tells (F.stock shelf.old) (F.stock shelf.new)) }
{
    let bytes = fetch(alloc, shelf, asked.text, TEXT_LIMIT)?;
    let image = assembled(alloc, asked, &bytes)?;
    store(alloc, shelf, asked.image, &image)?;
    Ok(Answer {
        text: None,
        status: 0,
    })
}
