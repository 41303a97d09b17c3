//! What steps and runs come to.
use crate::trap::TrapKind;
use word_base::{Ending, Outs, PortWord};

/// What one step comes to.
#[derive(Clone, Copy)]
pub enum Event {
    /// The machine went on.
    Ran,
    /// It put a word and went on.
    Out(PortWord),
    /// The run has ended.
    Ended(Ending),
    /// The word at `at` can't be run.
    Trap { kind: TrapKind, at: u16 },
}

/// Where a run stands.
#[derive(Clone, Copy, Debug, PartialEq, Eq)]
pub enum Stop {
    Ended(Ending),
    Trap { kind: TrapKind, at: u16 },
    /// All steps were done.
    Running,
}

/// What a run of so many steps comes to.
#[derive(Drop)]
pub struct RunOutcome {
    /// The words put out, in order.
    pub outs: Outs,
    pub stop: Stop,
}
