//! Why a walk gives no addresses.
ghost use Rattle.std.specs.Prelude.{◌≡◌};
ghost use Rattle.c25_walk.specs.declared.fault.WalkFault.TheVariants as faults;

use std::alloc::AllocFailed;
use thiserror::Error;

/// Why a walk gives no addresses. Of a bad word and an unknown address the one that stands first is answered.
#[derive(Clone, Copy, Debug, PartialEq, Eq, Error)]
pub enum WalkFault {
    /// The word is in no row, or it is the first of an instruction whose second word lies outside the range.
    #[error("a word of the function is no instruction")]
    BadWord { at: u16 },
    /// The instruction here accesses data memory through AR2 to AR5, or through a register that may be one of them, and its
    /// address isn't known.
    #[error("the address of an access isn't known")]
    UnknownAddress { at: u16 },
    #[error("memory was wanting for the walk")]
    NoMemory,
}

impl From<word_base::NoMemory> for WalkFault {
    ghost from_gives = { λ _ e. e ≡ faults.NoMemory };

    fn from(_: word_base::NoMemory) -> Self {
        WalkFault::NoMemory
    }
}

impl<T: Drop> From<AllocFailed<T>> for WalkFault {
    ghost from_gives = { λ _ e. e ≡ faults.NoMemory };

    fn from(_: AllocFailed<T>) -> Self {
        WalkFault::NoMemory
    }
}
