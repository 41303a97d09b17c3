//! Why texts are refused.
ghost use Rattle.std.specs.Prelude.{◌≡◌};
ghost use Rattle.lay_text.specs.declared.fault.SeqFault.TheVariants as faults;

use std::alloc::{AllocError, AllocFailed};
use thiserror::Error;

/// Why bytes are no sequence file.
#[derive(Clone, Copy, Debug, PartialEq, Eq, Error)]
pub enum SeqFault {
    /// The first faulty line, counted from 1. Blank lines count.
    #[error("a line of the sequence file is not in its format")]
    BadLine { line: u64 },
    /// More scalars than 64 are stated: this many.
    #[error("the sequence file states too many scalars")]
    TooManyScalars { count: u64 },
    #[error("memory was wanting for the sequence")]
    NoMemory,
}

impl From<word_base::NoMemory> for SeqFault {
    ghost from_gives = { λ _ e. e ≡ faults.NoMemory };

    fn from(_: word_base::NoMemory) -> Self {
        SeqFault::NoMemory
    }
}

impl<T: Drop> From<AllocFailed<T>> for SeqFault {
    ghost from_gives = { λ _ e. e ≡ faults.NoMemory };

    fn from(_: AllocFailed<T>) -> Self {
        SeqFault::NoMemory
    }
}
