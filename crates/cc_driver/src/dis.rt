//! `dis IMG`.
ghost use Rattle.std.specs.Prelude.{◌≢◌, IfOk, IfErr};
ghost use Rattle.cc_words.specs.Asked.{ToList};
ghost use Rattle.cc_files.specs.cc_text.Refusals.{why_of, OfMemory};
ghost use Rattle.cc_answers.specs.Answers.{answered};
ghost use Rattle.cc_files.specs.World.{shelves};
ghost use Rattle.cc_driver.specs.Run.{IsImageRefused};
ghost use Rattle.cc_driver.specs.Dis.{ListsTo};
ghost use Rattle.cc_files.specs.Stores.{NothingStored};
ghost use Rattle.cc_driver.specs.Work.{WorkDone, WorkRefused};

use c25_dis::listing;
use c25_image::read_image;
use cc_answers::Answer;
use cc_files::{IMAGE_LIMIT, Refusal, fetch};
use cc_shelf::Shelf;
use cc_words::Dis;
use std::alloc::Global;

// Lists the words of the image that bytes say.
fn listed<'a>(alloc: Global, asked: &Dis<'a>, bytes: &[u8]) -> Result<Answer, Refusal<'a>>
    ensures done { IfOk result (λ a. ListsTo bytes.now (answered a)) }
    // A refusal has its cause, unless memory is wanting.
    ensures refused { IfErr result (λ r. why_of r ≢ OfMemory → IsImageRefused asked.now.image.now bytes.now (why_of r)) }
{
    let image = match read_image(alloc, bytes) {
        Ok(image) => image,
        Err(fault) => return Err(Refusal::of_image(asked.image, fault)),
    };
    Ok(Answer {
        text: Some(listing(alloc, image.words())?),
        status: 0,
    })
}

/// Lists the words of an image as assembler text.
pub(crate) fn answer<'a, F: Shelf>(
    alloc: Global,
    asked: &Dis<'a>,
    shelf: &mut F,
) -> Result<Answer, Refusal<'a>>
    ensures done { IfOk result (λ a. WorkDone (ToList asked.now.image.now) (shelves F.tells (F.stock shelf.old) (F.stock shelf.new)) (answered a)) }
    ensures refused { IfErr result (λ r. WorkRefused (ToList asked.now.image.now) (shelves F.tells (F.stock shelf.old) (F.stock shelf.new)) (why_of r)) }
    ensures stored { NothingStored (shelves F.tells (F.stock shelf.old) (F.stock shelf.new)) }
{
    let bytes = fetch(alloc, shelf, asked.image, IMAGE_LIMIT)?;
    listed(alloc, asked, &bytes)
}
