//! Why texts are refused.
ghost use Rattle.std.specs.Prelude.{◌≡◌};
ghost use Rattle.c25_asm.specs.declared.fault.AsmFault.TheVariants as faults;

use std::alloc::{AllocError, AllocFailed};
use thiserror::Error;

/// Why bytes are no assembler text. Lines are counted from 1, and those that hold nothing count.
#[derive(Clone, Copy, Debug, PartialEq, Eq, Error)]
pub enum AsmFault {
    #[error("a line of the assembler text is not in its format")]
    BadLine { line: u64 },
    #[error("a line of the assembler text names a label that no line has")]
    UnknownLabel { line: u64 },
    /// The line of a label that an earlier line has too.
    #[error("a line of the assembler text has the label of an earlier line")]
    LabelTwice { line: u64 },
    #[error("a number of the assembler text does not fit its field")]
    OutOfRange { line: u64 },
    /// No line is faulty, and there are more words than 65,536: this many.
    #[error("the assembler text has too many words")]
    TooLong { count: u64 },
    #[error("memory was wanting for the assembler text")]
    NoMemory,
}

impl From<AllocError> for AsmFault {
    ghost from_gives = { λ _ e. e ≡ faults.NoMemory };

    fn from(_: AllocError) -> Self {
        AsmFault::NoMemory
    }
}

impl<T: Drop> From<AllocFailed<T>> for AsmFault {
    ghost from_gives = { λ _ e. e ≡ faults.NoMemory };

    fn from(_: AllocFailed<T>) -> Self {
        AsmFault::NoMemory
    }
}
