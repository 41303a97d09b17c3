//! A refusal within the parser.
ghost use Rattle.std.specs.Prelude.{◌≡◌};
ghost use Rattle.c_cursor.specs.declared.fault.Refusal.TheVariants as refusals;

use std::alloc::{AllocError, AllocFailed};

/// A refusal within the parser.
#[derive(Clone, Copy, PartialEq, Eq)]
pub enum Refusal {
    /// No tree goes on where so many tokens are left.
    Syntax { left: u32 },
    /// Memory was wanting for the tree.
    NoMemory,
}

impl From<word_base::NoMemory> for Refusal {
    ghost from_gives = { λ _ e. e ≡ refusals.NoMemory };

    fn from(_: word_base::NoMemory) -> Self {
        Refusal::NoMemory
    }
}

impl From<AllocError> for Refusal {
    ghost from_gives = { λ _ e. e ≡ refusals.NoMemory };

    fn from(_: AllocError) -> Self {
        Refusal::NoMemory
    }
}

impl<T: Drop> From<AllocFailed<T>> for Refusal {
    ghost from_gives = { λ _ e. e ≡ refusals.NoMemory };

    fn from(_: AllocFailed<T>) -> Self {
        Refusal::NoMemory
    }
}
