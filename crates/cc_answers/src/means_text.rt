//! The text of what a source means.
ghost use Rattle.std.specs.Prelude.{◌≡◌, ◌++◌, IfOk, OnOk};
ghost use Rattle.cc_answers.specs.MeansText.{undefined_kind_name, undefined_line, outcome_line, outcome_status, means_answer};
ghost use Rattle.cc_answers.specs.Answers.{answered};
ghost use Rattle.word_base.specs.Outcome.{outputs_of};

use crate::answer::Answer;
use crate::run_text::push_running;
use c25_image::{push_decimal, push_ending, write_outs};
use std::alloc::Global;
use word_base::{NoMemory, Outcome, PortWord, UndefinedKind};

fn kind_name(kind: UndefinedKind) -> &'static str
    ensures { result.now ≡ undefined_kind_name kind }
{
    match kind {
        UndefinedKind::Overflow => "overflow",
        UndefinedKind::DivideByZero => "divide by zero",
        UndefinedKind::ShiftCount => "shift count",
        UndefinedKind::Indeterminate => "indeterminate",
        UndefinedKind::BadPointer => "bad pointer",
        UndefinedKind::NoValue => "no value",
    }
}

// The line of an undefined operation, without its line feed.
fn push_undefined(text: &mut Vec<u8>, kind: UndefinedKind, at: u32) -> Result<(), NoMemory>
    ensures { OnOk result (text.new.items ≡ text.old.items ++ undefined_line kind at) }
{
    text.extend_from_slice(b"undefined ")?;
    text.extend_from_slice(kind_name(kind).as_bytes())?;
    text.extend_from_slice(b" at byte ")?;
    push_decimal(text, u64::from(at))?;
    Ok(())
}

// The words that were put out.
fn outputs_of(outcome: &Outcome) -> &[PortWord]
    ensures { result.now ≡ outputs_of outcome.now }
{
    match outcome {
        Outcome::Ended { outs, .. } | Outcome::More { outs } | Outcome::Undefined { outs, .. } => {
            outs.words()
        }
    }
}

// The line behind the outputs, without its line feed.
fn push_outcome(text: &mut Vec<u8>, outcome: &Outcome, turns: u32) -> Result<(), NoMemory>
    ensures { OnOk result (text.new.items ≡ text.old.items ++ outcome_line turns outcome.now) }
{
    match outcome {
        Outcome::Ended { ending, .. } => push_ending(text, *ending),
        Outcome::More { .. } => push_running(text, u64::from(turns), " turns"),
        Outcome::Undefined { kind, at, .. } => push_undefined(text, *kind, *at),
    }
}

// The status of an evaluation whose answer was put.
fn outcome_status(outcome: &Outcome) -> u8
    ensures { result ≡ outcome_status outcome.now }
{
    match outcome {
        Outcome::Ended { .. } => 0,
        Outcome::More { .. } => 6,
        Outcome::Undefined { .. } => 10,
    }
}

/// What an evaluation answers whose loops had so many turns: the outputs and the line behind them, and the status.
pub fn means_answer(alloc: Global, outcome: &Outcome, turns: u32) -> Result<Answer, NoMemory>
    ensures { IfOk result (λ a. answered a ≡ means_answer turns outcome.now) }
{
    let mut text = write_outs(alloc, outputs_of(outcome))?;
    push_outcome(&mut text, outcome, turns)?;
    text.push(b'\n')?;
    Ok(Answer {
        text: Some(text),
        status: outcome_status(outcome),
    })
}
