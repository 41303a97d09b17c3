//! The summary of a generated program's run.
ghost use Rattle.std.specs.Prelude.{◌≡◌, ◌++◌, decimal, IfOk, OnOk};
ghost use Rattle.c25_image.specs.Lines.{with_feed};
ghost use Rattle.cc_answers.specs.GenText as summary;
ghost use Rattle.cc_answers.specs.GenText.{summary_line, summary_answer, gen_answer};
ghost use Rattle.cc_answers.specs.Answers.{answered};

use crate::answer::Answer;
use crate::run_text::run_answer;
use c25_image::{push_decimal, push_ending, push_hex};
use c25_isa::{RunOutcome, Stop};
use std::alloc::Global;
use word_base::{Ending, NoMemory, PortWord};

// The word of the last output, or 0 where there is none.
fn last_word(outs: &[PortWord]) -> u16
    ensures { result ≡ summary.last_word outs.now }
{
    match outs.last() {
        Some(out) => out.word(),
        None => 0,
    }
}

// A number behind what it is called.
fn push_count(text: &mut Vec<u8>, name: &[u8], count: u64) -> Result<(), NoMemory>
    ensures { OnOk result (text.new.items ≡ text.old.items ++ (name.now ++ decimal count)) }
{
    text.extend_from_slice(name)?;
    push_decimal(text, count)?;
    Ok(())
}

// The summary of a run that ended, with its line feed.
fn push_summary(
    text: &mut Vec<u8>,
    number: u32,
    functions: usize,
    outs: &[PortWord],
    ending: Ending,
) -> Result<(), NoMemory>
    ensures { OnOk result (text.new.items ≡ text.old.items ++ with_feed (summary_line number functions outs.now ending)) }
{
    push_count(text, b"gen ", u64::from(number))?;
    push_count(text, b": functions ", functions as u64)?;
    push_count(text, b", outputs ", outs.len() as u64)?;
    text.extend_from_slice(b", last ")?;
    push_hex(text, last_word(outs))?;
    text.extend_from_slice(b", ")?;
    push_ending(text, ending)?;
    text.push(b'\n')?;
    Ok(())
}

// What is answered of a run that ended.
fn summary_answer(
    alloc: Global,
    number: u32,
    functions: usize,
    outs: &[PortWord],
    ending: Ending,
) -> Result<Answer, NoMemory>
    ensures { IfOk result (λ a. answered a ≡ summary_answer number functions outs.now ending) }
{
    let mut text = Vec::new(alloc);
    push_summary(&mut text, number, functions, outs, ending)?;
    Ok(Answer {
        text: Some(text),
        status: 0,
    })
}

/// What is answered of the program that is made from a number and has so many functions, where its run of so many steps came to this: the
/// summary of a run that ended, and else what any run answers.
pub fn gen_answer(
    alloc: Global,
    number: u32,
    functions: usize,
    outcome: &RunOutcome,
    steps: u64,
) -> Result<Answer, NoMemory>
    ensures { IfOk result (λ a. answered a ≡ gen_answer number functions steps outcome.now.outs outcome.now.stop) }
{
    match outcome.stop {
        Stop::Ended(ending) => summary_answer(
            alloc,
            number,
            functions,
            outcome.outs.words(),
            ending,
        ),
        Stop::Trap { .. } | Stop::Running => run_answer(alloc, outcome, steps),
    }
}
