//! What a run comes to.
use crate::port::Outs;

/// How a run ends.
#[derive(Clone, Copy, Debug, PartialEq, Eq)]
pub enum Ending {
    /// `main` returned this word.
    Returned(u16),
    /// The input of this port, below 16, had no word left.
    InputEnded(u8),
}

/// An operation that C leaves undefined.
#[derive(Clone, Copy, PartialEq, Eq)]
pub enum UndefinedKind {
    /// The value of a signed operation is outside -32768 to 32767.
    Overflow,
    DivideByZero,
    /// A shift by a count outside 0 to 15.
    ShiftCount,
    /// A read of an object that wasn't written.
    Indeterminate,
    /// A use of a pointer that points to no cell of the wanted kind.
    BadPointer,
    /// The used value of a function that ended without one.
    NoValue,
}

/// What a run of a source comes to, each with the words put out before.
#[derive(Drop)]
pub enum Outcome {
    Ended {
        outs: Outs,
        ending: Ending,
    },
    /// A loop would begin a turn past the greatest number of turns.
    More {
        outs: Outs,
    },
    /// C doesn't define what comes next. `at` is a byte offset in the source.
    Undefined {
        outs: Outs,
        kind: UndefinedKind,
        at: u32,
    },
}
