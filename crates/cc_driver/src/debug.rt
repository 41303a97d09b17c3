//! `debug IMG PORTS SCRIPT`.
ghost use Rattle.std.specs.Prelude.{◌≢◌, IfOk, IfErr};
ghost use Rattle.cc_words.specs.Asked.{ToDebug};
ghost use Rattle.cc_files.specs.cc_text.Refusals.{why_of, OfMemory};
ghost use Rattle.cc_answers.specs.Answers.{answered};
ghost use Rattle.cc_files.specs.World.{shelves};
ghost use Rattle.cc_driver.specs.Debug.{DebugsTo, DebugRefused};
ghost use Rattle.cc_driver.specs.Work.{WorkDone, WorkRefused};
ghost use Rattle.cc_files.specs.Stores.{NothingStored};

use c25_debug::{read_script, session};
use c25_image::{read_image, read_ports};
use cc_answers::Answer;
use cc_files::{FetchedThree, IMAGE_LIMIT, PORTS_LIMIT, Refusal, SCRIPT_LIMIT, Want, fetch_three};
use cc_shelf::Shelf;
use cc_words::Debug;
use std::alloc::Global;

// Follows the script of the third text over the image of the first, on the ports of the second.
fn debug<'a>(alloc: Global, asked: &Debug<'a>, files: &FetchedThree) -> Result<Answer, Refusal<'a>>
    ensures done { IfOk result (λ a. DebugsTo files.now.first.items files.now.second.items files.now.third.items (answered a)) }
    // A refusal has its cause, unless memory is wanting.
    ensures refused { IfErr result (λ r. why_of r ≢ OfMemory
        → DebugRefused asked.now.image.now asked.now.ports.now asked.now.script.now files.now.first.items files.now.second.items files.now.third.items
        (why_of r)) }
{
    let image = match read_image(alloc, &files.first) {
        Ok(image) => image,
        Err(fault) => return Err(Refusal::of_image(asked.image, fault)),
    };
    let ports = match read_ports(alloc, &files.second) {
        Ok(ports) => ports,
        Err(fault) => return Err(Refusal::of_ports(asked.ports, fault)),
    };
    let script = match read_script(alloc, &files.third) {
        Ok(script) => script,
        Err(fault) => return Err(Refusal::of_script(asked.script, fault)),
    };
    Ok(Answer {
        text: Some(session(alloc, &image, &ports, &script)?),
        status: 0,
    })
}

/// Follows a script over an image, from zeros.
pub(crate) fn answer<'a, F: Shelf>(
    alloc: Global,
    asked: &Debug<'a>,
    shelf: &mut F,
) -> Result<Answer, Refusal<'a>>
    ensures done { IfOk result (λ a. WorkDone (ToDebug asked.now.image.now asked.now.ports.now asked.now.script.now) (shelves F.tells (F.stock shelf.old) (F.stock shelf.new)) (answered a)) }
    ensures refused { IfErr result (λ r. WorkRefused (ToDebug asked.now.image.now asked.now.ports.now asked.now.script.now) (shelves F.tells (F.stock shelf.old) (F.stock shelf.new)) (why_of r)) }
    ensures stored { NothingStored (shelves F.tells (F.stock shelf.old) (F.stock shelf.new)) }
{
    let image = Want {
        name: asked.image,
        limit: IMAGE_LIMIT,
    };
    let ports = Want {
        name: asked.ports,
        limit: PORTS_LIMIT,
    };
    let script = Want {
        name: asked.script,
        limit: SCRIPT_LIMIT,
    };
    let files = fetch_three(alloc, shelf, &image, &ports, &script)?;
    debug(alloc, asked, &files)
}
