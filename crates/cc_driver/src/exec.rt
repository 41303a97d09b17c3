//! `exec SRC PORTS [--steps M]`.
ghost use Rattle.std.specs.Prelude.{◌≢◌, ◌<◌, ◌^◌, length, IfOk, IfErr};
ghost use Rattle.cc_words.specs.Asked.{ToExecute};
ghost use Rattle.cc_files.specs.cc_text.Refusals.{why_of, OfMemory};
ghost use Rattle.cc_answers.specs.Answers.{answered};
ghost use Rattle.cc_files.specs.World.{shelves};
ghost use Rattle.cc_driver.specs.Exec.{ExecutesTo, ExecuteRefused};
ghost use Rattle.cc_driver.specs.Work.{WorkDone, WorkRefused};
ghost use Rattle.cc_files.specs.Stores.{NothingStored};

use crate::build::plain_options;
use crate::run::run_image;
use c25_image::read_ports;
use cc_answers::Answer;
use cc_files::{Fetched, PORTS_LIMIT, Refusal, SOURCE_LIMIT, compile, fetch_both};
use cc_shelf::Shelf;
use cc_words::Exec;
use std::alloc::Global;
use std::thread::Threads;
use word_base::OpenGate;

// Compiles the source of one text and runs it on the ports of another. The format of the ports comes before the faults of the source.
fn executed<'a, R: Threads + Sync>(
    rt: &R,
    alloc: Global,
    asked: &Exec<'a>,
    files: &Fetched,
) -> Result<Answer, Refusal<'a>>
    requires short { length files.now.bytes.items < 2 ^ 32 }
    ensures done { IfOk result (λ a. ExecutesTo files.now.bytes.items files.now.more.items asked.now.steps (answered a)) }
    // A refusal has its cause, unless memory is wanting.
    ensures refused { IfErr result (λ r. why_of r ≢ OfMemory
        → ExecuteRefused asked.now.ports.now files.now.bytes.items files.now.more.items (why_of r)) }
{
    let ports = match read_ports(alloc, &files.more) {
        Ok(ports) => ports,
        Err(fault) => return Err(Refusal::of_ports(asked.ports, fault)),
    };
    let built = compile(rt, alloc, &OpenGate, &files.bytes, plain_options())?;
    Ok(run_image(alloc, &built.image, ports, asked.steps)?)
}

/// Compiles a source, and runs it from zeros.
pub(crate) fn answer<'a, R: Threads + Sync, F: Shelf>(
    rt: &R,
    alloc: Global,
    asked: &Exec<'a>,
    shelf: &mut F,
) -> Result<Answer, Refusal<'a>>
    ensures done { IfOk result (λ a. WorkDone (ToExecute asked.now.source.now asked.now.ports.now asked.now.steps) (shelves F.tells (F.stock shelf.old) (F.stock shelf.new)) (answered a)) }
    ensures refused { IfErr result (λ r. WorkRefused (ToExecute asked.now.source.now asked.now.ports.now asked.now.steps) (shelves F.tells (F.stock shelf.old) (F.stock shelf.new)) (why_of r)) }
    ensures stored { NothingStored (shelves F.tells (F.stock shelf.old) (F.stock shelf.new)) }
{
    let files = fetch_both(
        alloc,
        shelf,
        asked.source,
        SOURCE_LIMIT,
        asked.ports,
        PORTS_LIMIT,
    )?;
    executed(rt, alloc, asked, &files)
}
