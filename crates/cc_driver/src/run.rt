//! `run IMG PORTS [--steps M]`.
ghost use Rattle.std.specs.Prelude.{◌≢◌, IfOk, IfErr};
ghost use Rattle.cc_words.specs.Asked.{ToRun};
ghost use Rattle.cc_files.specs.cc_text.Refusals.{why_of, OfMemory};
ghost use Rattle.cc_answers.specs.Answers.{answered};
ghost use Rattle.cc_files.specs.World.{shelves};
ghost use Rattle.cc_driver.specs.Run.{Reaches, ImageRuns, RunsTo, RunRefused};
ghost use Rattle.cc_driver.specs.Work.{WorkDone, WorkRefused};
ghost use Rattle.cc_files.specs.Stores.{NothingStored};

use c25_image::{read_image, read_ports};
use c25_isa::{Image, RunOutcome, Start};
use c25_sim::Machine;
use cc_answers::{Answer, run_answer};
use cc_files::{Fetched, IMAGE_LIMIT, PORTS_LIMIT, Refusal, fetch_both};
use cc_shelf::Shelf;
use cc_words::Run;
use std::alloc::Global;
use word_base::{NoMemory, Ports};

/// Runs an image from zeros.
pub(crate) fn run_from_zeros(
    alloc: Global,
    image: &Image,
    ports: Ports,
    steps: u64,
) -> Result<RunOutcome, NoMemory>
    ensures { IfOk result (λ r. Reaches image.now.words ports steps r.outs r.stop) }
{
    let start = Start::zero(alloc, image)?;
    let mut machine = Machine::new(alloc, start, ports)?;
    machine.run(alloc, steps)
}

/// Runs an image from zeros, and answers what its run came to.
pub(crate) fn run_image(
    alloc: Global,
    image: &Image,
    ports: Ports,
    steps: u64,
) -> Result<Answer, NoMemory>
    ensures { IfOk result (λ a. ImageRuns image.now.words ports steps (answered a)) }
{
    let outcome = run_from_zeros(alloc, image, ports, steps)?;
    run_answer(alloc, &outcome, steps)
}

// Runs the image of one text on the ports of another.
fn run<'a>(alloc: Global, asked: &Run<'a>, files: &Fetched) -> Result<Answer, Refusal<'a>>
    ensures done { IfOk result (λ a. RunsTo files.now.bytes.items files.now.more.items asked.now.steps (answered a)) }
    // A refusal has its cause, unless memory is wanting.
    ensures refused { IfErr result (λ r. why_of r ≢ OfMemory
        → RunRefused asked.now.image.now asked.now.ports.now files.now.bytes.items files.now.more.items (why_of r)) }
{
    let image = match read_image(alloc, &files.bytes) {
        Ok(image) => image,
        Err(fault) => return Err(Refusal::of_image(asked.image, fault)),
    };
    let ports = match read_ports(alloc, &files.more) {
        Ok(ports) => ports,
        Err(fault) => return Err(Refusal::of_ports(asked.ports, fault)),
    };
    Ok(run_image(alloc, &image, ports, asked.steps)?)
}

/// Runs an image from zeros.
pub(crate) fn answer<'a, F: Shelf>(
    alloc: Global,
    asked: &Run<'a>,
    shelf: &mut F,
) -> Result<Answer, Refusal<'a>>
    ensures done { IfOk result (λ a. WorkDone (ToRun asked.now.image.now asked.now.ports.now asked.now.steps) (shelves F.tells (F.stock shelf.old) (F.stock shelf.new)) (answered a)) }
    ensures refused { IfErr result (λ r. WorkRefused (ToRun asked.now.image.now asked.now.ports.now asked.now.steps) (shelves F.tells (F.stock shelf.old) (F.stock shelf.new)) (why_of r)) }
    ensures stored { NothingStored (shelves F.tells (F.stock shelf.old) (F.stock shelf.new)) }
{
    let files = fetch_both(
        alloc,
        shelf,
        asked.image,
        IMAGE_LIMIT,
        asked.ports,
        PORTS_LIMIT,
    )?;
    run(alloc, asked, &files)
}
