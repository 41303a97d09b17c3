//! Why scripts are refused.
ghost use Rattle.std.specs.Prelude.{◌≡◌};
ghost use Rattle.c25_debug.specs.declared.fault.ScriptFault.TheVariants as faults;

use std::alloc::AllocFailed;
use thiserror::Error;

/// Why bytes are no script.
#[derive(Clone, Copy, Debug, PartialEq, Eq, Error)]
pub enum ScriptFault {
    /// The first faulty line, counted from 1. Blank lines count.
    #[error("a line of the script is not in its format")]
    BadLine { line: u64 },
    /// No line is faulty, and the commands are more than 1,000: this many.
    #[error("the script has too many commands")]
    TooLong { count: u64 },
    #[error("memory was wanting for the script")]
    NoMemory,
}

impl<T: Drop> From<AllocFailed<T>> for ScriptFault {
    ghost from_gives = { λ _ e. e ≡ faults.NoMemory };

    fn from(_: AllocFailed<T>) -> Self {
        ScriptFault::NoMemory
    }
}
