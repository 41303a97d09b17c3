//! The text that a run puts.
ghost use Rattle.std.specs.Prelude.{◌≡◌, ◌++◌, IfOk, OnOk};
ghost use Rattle.cc_answers.specs.RunText.{running_line, stop_line, stop_status, run_answer};
ghost use Rattle.cc_answers.specs.Answers.{answered};

use crate::answer::Answer;
use c25_image::{push_decimal, push_ending, push_trap, write_outs};
use c25_isa::{RunOutcome, Stop};
use std::alloc::Global;
use word_base::NoMemory;

/// The line of a run that went on behind so many of its steps or turns, without its line feed.
pub(crate) fn push_running(text: &mut Vec<u8>, count: u64, what: &str) -> Result<(), NoMemory>
    ensures { OnOk result (text.new.items ≡ text.old.items ++ running_line count what.now) }
{
    text.extend_from_slice(b"running after ")?;
    push_decimal(text, count)?;
    text.extend_from_slice(what.as_bytes())?;
    Ok(())
}

// The line behind the outputs, without its line feed.
fn push_stop(text: &mut Vec<u8>, stop: Stop, steps: u64) -> Result<(), NoMemory>
    ensures { OnOk result (text.new.items ≡ text.old.items ++ stop_line steps stop) }
{
    match stop {
        Stop::Ended(ending) => push_ending(text, ending),
        Stop::Trap { kind, at } => push_trap(text, kind, at),
        Stop::Running => push_running(text, steps, " steps"),
    }
}

// The status of a run whose answer was put.
fn stop_status(stop: Stop) -> u8
    ensures { result ≡ stop_status stop }
{
    match stop {
        Stop::Ended(_) => 0,
        Stop::Trap { .. } => 7,
        Stop::Running => 6,
    }
}

/// What a run of so many steps answers: its outputs and the line behind them, and the status.
pub fn run_answer(alloc: Global, outcome: &RunOutcome, steps: u64) -> Result<Answer, NoMemory>
    ensures { IfOk result (λ a. answered a ≡ run_answer steps outcome.now.outs outcome.now.stop) }
{
    let mut text = write_outs(alloc, outcome.outs.words())?;
    push_stop(&mut text, outcome.stop, steps)?;
    text.push(b'\n')?;
    Ok(Answer {
        text: Some(text),
        status: stop_status(outcome.stop),
    })
}
