//! What commands put, and their statuses.
ghost use Rattle.std.specs.Prelude.{◌≡◌};
ghost use Rattle.cc_shelf.specs.Reliable.{PutsStayReliable};
ghost use Rattle.cc_text.specs.Refusals.{why_of};
ghost use Rattle.cc_answers.specs.Answers.{answered};
ghost use Rattle.cc_files.specs.World.{sinks};
ghost use Rattle.cc_files.specs.Puts.{PutsLine, TextPut, AnswerPut, SaysWant, SaysMade, Refused};

use cc_answers::Answer;
use cc_shelf::{Sink, SinkFault};
use cc_text::{Refusal, file_line, macro_line, source_line, unit_line};
use std::alloc::Global;
use word_base::NoMemory;

/// Puts a line. A failure changes no status.
pub fn say<K: Sink>(alloc: Global, out: &mut K, line: &[u8])
    ensures put { PutsLine line.now (sinks K.tells (K.output out.old) (K.output out.new)) }
    ensures reliable { PutsStayReliable (K.output out.old) (K.output out.new) }
{
    let _ = out.put(alloc, line);
}

// Says that memory was wanting, and gives the status of that.
fn say_want<K: Sink>(alloc: Global, out: &mut K) -> u8
    ensures put { SaysWant (sinks K.tells (K.output out.old) (K.output out.new)) result }
    ensures reliable { PutsStayReliable (K.output out.old) (K.output out.new) }
{
    say(alloc, out, b"want of memory\n");
    5
}

// Puts a text, and gives the status: the first of these where all of it was put, and the second one where the put failed. Where the sink
// found no memory for it, that is said.
fn put_text<K: Sink>(alloc: Global, out: &mut K, text: &[u8], ends: u8, fails: u8) -> u8
    ensures put { TextPut text.now ends fails (sinks K.tells (K.output out.old) (K.output out.new)) result }
    ensures reliable { PutsStayReliable (K.output out.old) (K.output out.new) }
{
    match out.put(alloc, text) {
        Ok(()) => ends,
        Err(SinkFault::Failed) => fails,
        Err(SinkFault::NoMemory) => say_want(alloc, out),
    }
}

// Puts a line, and gives its status. Where there is no memory for the line, that is said.
fn say_made<K: Sink>(alloc: Global, out: &mut K, line: &Result<String, NoMemory>, status: u8) -> u8
    ensures put { SaysMade line.now status (sinks K.tells (K.output out.old) (K.output out.new)) result }
    ensures reliable { PutsStayReliable (K.output out.old) (K.output out.new) }
{
    match line {
        Ok(line) => put_text(alloc, out, line.as_bytes(), status, status),
        Err(NoMemory) => say_want(alloc, out),
    }
}

/// Puts the line of a refusal, where it has one, and gives its status.
pub fn refuse<K: Sink>(alloc: Global, out: &mut K, refusal: &Refusal<'_>) -> u8
    ensures put { Refused (why_of refusal.now) (sinks K.tells (K.output out.old) (K.output out.new)) result }
    ensures reliable { PutsStayReliable (K.output out.old) (K.output out.new) }
{
    let status = refusal.status();
    match refusal {
        Refusal::File { name, why } => {
            say_made(alloc, out, &file_line(alloc, name, *why), status)
        }
        Refusal::Source(why) => say_made(alloc, out, &source_line(alloc, why), status),
        Refusal::Macros(why) => say_made(alloc, out, &macro_line(alloc, *why), status),
        Refusal::Units(why) => say_made(alloc, out, &unit_line(alloc, why), status),
        Refusal::Store => status,
        Refusal::NoMemory => say_want(alloc, out),
    }
}

/// Puts an answer, where it has a text, and gives the status.
pub fn put<K: Sink>(alloc: Global, out: &mut K, answer: &Answer) -> u8
    ensures put { AnswerPut (answered answer.now) (sinks K.tells (K.output out.old) (K.output out.new)) result }
    ensures reliable { PutsStayReliable (K.output out.old) (K.output out.new) }
{
    match &answer.text {
        None => answer.status,
        Some(text) => put_text(alloc, out, text, answer.status, 4),
    }
}
