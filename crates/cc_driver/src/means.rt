//! `means SRC PORTS [--turns N]`.
ghost use Rattle.std.specs.Prelude.{◌≢◌, ◌<◌, ◌^◌, length, IfOk, IfErr};
ghost use Rattle.cc_words.specs.Asked.{ToEvaluate};
ghost use Rattle.cc_files.specs.cc_text.Refusals.{why_of, OfMemory};
ghost use Rattle.cc_answers.specs.Answers.{answered};
ghost use Rattle.cc_files.specs.World.{shelves};
ghost use Rattle.cc_driver.specs.Means.{MeansTo, MeansRefused};
ghost use Rattle.cc_driver.specs.Work.{WorkDone, WorkRefused};
ghost use Rattle.cc_files.specs.Stores.{NothingStored};

use c_means::evaluate;
use c25_image::read_ports;
use cc_answers::{Answer, means_answer};
use cc_files::{Fetched, PORTS_LIMIT, Refusal, SOURCE_LIMIT, fetch_both, typed_program};
use cc_shelf::Shelf;
use cc_words::Means;
use std::alloc::Global;

// Evaluates the source of one text on the ports of another. The format of the ports comes before the faults of the source.
fn evaluated<'a>(alloc: Global, asked: &Means<'a>, files: &Fetched) -> Result<Answer, Refusal<'a>>
    requires short { length files.now.bytes.items < 2 ^ 32 }
    ensures done { IfOk result (λ a. MeansTo files.now.bytes.items files.now.more.items asked.now.turns (answered a)) }
    // A refusal has its cause, unless memory is wanting.
    ensures refused { IfErr result (λ r. why_of r ≢ OfMemory
        → MeansRefused asked.now.ports.now files.now.bytes.items files.now.more.items (why_of r)) }
{
    let lines = match read_ports(alloc, &files.more) {
        Ok(lines) => lines,
        Err(fault) => return Err(Refusal::of_ports(asked.ports, fault)),
    };
    let program = typed_program(alloc, &files.bytes)?;
    let outcome = evaluate(alloc, &program, &lines, asked.turns)?;
    Ok(means_answer(alloc, &outcome, asked.turns)?)
}

/// Evaluates a source.
pub(crate) fn answer<'a, F: Shelf>(
    alloc: Global,
    asked: &Means<'a>,
    shelf: &mut F,
) -> Result<Answer, Refusal<'a>>
    ensures done { IfOk result (λ a. WorkDone (ToEvaluate asked.now.source.now asked.now.ports.now asked.now.turns) (shelves F.tells (F.stock shelf.old) (F.stock shelf.new)) (answered a)) }
    ensures refused { IfErr result (λ r. WorkRefused (ToEvaluate asked.now.source.now asked.now.ports.now asked.now.turns) (shelves F.tells (F.stock shelf.old) (F.stock shelf.new)) (why_of r)) }
    ensures stored { NothingStored (shelves F.tells (F.stock shelf.old) (F.stock shelf.new)) }
{
    let files = fetch_both(
        alloc,
        shelf,
        asked.source,
        SOURCE_LIMIT,
        asked.ports,
        PORTS_LIMIT,
    )?;
    evaluated(alloc, asked, &files)
}
