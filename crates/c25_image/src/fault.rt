//! Why texts are refused.
ghost use Rattle.std.specs.Prelude.{◌≡◌};
ghost use Rattle.c25_image.specs.declared.fault.ImageFault.TheVariants as image_faults;
ghost use Rattle.c25_image.specs.declared.fault.PortFault.TheVariants as port_faults;

use std::alloc::{AllocError, AllocFailed};
use thiserror::Error;

/// Why bytes are no image.
#[derive(Clone, Copy, Debug, PartialEq, Eq, Error)]
pub enum ImageFault {
    /// The first faulty line, counted from 1.
    #[error("a line of the image is not in its format")]
    BadLine { line: u64 },
    /// More words than 65,536 are stated: this many.
    #[error("the image states too many words")]
    TooLong { count: u64 },
    /// The first faulty line, counted from 1, is that of a function whose range doesn't rise, or
    /// doesn't lie behind those before it and within the words.
    #[error("the range of a function of the image breaks the rule")]
    BadRange { line: u64 },
    #[error("memory was wanting for the image")]
    NoMemory,
}

impl From<word_base::NoMemory> for ImageFault {
    ghost from_gives = { λ _ e. e ≡ image_faults.NoMemory };

    fn from(_: word_base::NoMemory) -> Self {
        ImageFault::NoMemory
    }
}

impl From<AllocError> for ImageFault {
    ghost from_gives = { λ _ e. e ≡ image_faults.NoMemory };

    fn from(_: AllocError) -> Self {
        ImageFault::NoMemory
    }
}

impl<T: Drop> From<AllocFailed<T>> for ImageFault {
    ghost from_gives = { λ _ e. e ≡ image_faults.NoMemory };

    fn from(_: AllocFailed<T>) -> Self {
        ImageFault::NoMemory
    }
}

/// Why bytes are no port file.
#[derive(Clone, Copy, Debug, PartialEq, Eq, Error)]
pub enum PortFault {
    /// The first faulty line, counted from 1. Blank lines count.
    #[error("a line of the port file is not in its format")]
    BadLine { line: u64 },
    #[error("memory was wanting for the port file")]
    NoMemory,
}

impl<T: Drop> From<AllocFailed<T>> for PortFault {
    ghost from_gives = { λ _ e. e ≡ port_faults.NoMemory };

    fn from(_: AllocFailed<T>) -> Self {
        PortFault::NoMemory
    }
}
