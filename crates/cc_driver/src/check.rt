//! `check IMG CERT`.
ghost use Rattle.std.specs.Prelude.{◌≡◌, ◌≢◌, ◌≤◌, Some, if◌then◌else◌, length, IfOk, IfErr};
ghost use Rattle.cc_words.specs.Asked.{ToCheck};
ghost use Rattle.cc_files.specs.cc_text.Refusals.{why_of, OfMemory};
ghost use Rattle.cc_answers.specs.Answers.{answered};
ghost use Rattle.cc_files.specs.World.{shelves};
ghost use Rattle.cc_driver.specs.Check.{ChecksTo, CheckRefused};
ghost use Rattle.cc_driver.specs.Work.{WorkDone, WorkRefused};
ghost use Rattle.cc_files.specs.Stores.{NothingStored};

use c25_image::read_image;
use cc_answers::Answer;
use cc_check::{Checked, check};
use cc_files::{CERTIFICATE_LIMIT, Fetched, IMAGE_LIMIT, Refusal, fetch_both};
use cc_shelf::Shelf;
use cc_words::Check;
use std::alloc::Global;

// What a check answers.
fn check_answer(checked: Checked) -> Answer
    ensures { answered result ≡ record { text = Some checked.text.items; status = if checked.passes then 0 else 8 } }
{
    Answer {
        text: Some(checked.text),
        status: if checked.passes { 0 } else { 8 },
    }
}

// Checks the image of one text against the certificate of another, which is read as it is checked.
fn checked<'a>(alloc: Global, asked: &Check<'a>, files: &Fetched) -> Result<Answer, Refusal<'a>>
    requires short { length files.now.more.items ≤ 536870912 }
    ensures done { IfOk result (λ a. ChecksTo files.now.bytes.items files.now.more.items (answered a)) }
    // A refusal has its cause, unless memory is wanting.
    ensures refused { IfErr result (λ r. why_of r ≢ OfMemory
        → CheckRefused asked.now.image.now asked.now.certificate.now files.now.bytes.items files.now.more.items (why_of r)) }
{
    let image = match read_image(alloc, &files.bytes) {
        Ok(image) => image,
        Err(fault) => return Err(Refusal::of_image(asked.image, fault)),
    };
    match check(alloc, &image, &files.more) {
        Ok(checked) => Ok(check_answer(checked)),
        Err(fault) => Err(Refusal::of_certificate(asked.certificate, fault)),
    }
}

/// Checks an image against a certificate.
pub(crate) fn answer<'a, F: Shelf>(
    alloc: Global,
    asked: &Check<'a>,
    shelf: &mut F,
) -> Result<Answer, Refusal<'a>>
    ensures done { IfOk result (λ a. WorkDone (ToCheck asked.now.image.now asked.now.certificate.now) (shelves F.tells (F.stock shelf.old) (F.stock shelf.new)) (answered a)) }
    ensures refused { IfErr result (λ r. WorkRefused (ToCheck asked.now.image.now asked.now.certificate.now) (shelves F.tells (F.stock shelf.old) (F.stock shelf.new)) (why_of r)) }
    ensures stored { NothingStored (shelves F.tells (F.stock shelf.old) (F.stock shelf.new)) }
{
    let files = fetch_both(
        alloc,
        shelf,
        asked.image,
        IMAGE_LIMIT,
        asked.certificate,
        CERTIFICATE_LIMIT,
    )?;
    checked(alloc, asked, &files)
}
