//! Why texts are refused.
ghost use Rattle.std.specs.Prelude.{◌≡◌};
ghost use Rattle.lay_cert.specs.declared.fault.CertFault.TheVariants as faults;

use std::alloc::{AllocError, AllocFailed};
use thiserror::Error;

/// Why bytes are no certificate.
#[derive(Clone, Copy, Debug, PartialEq, Eq, Error)]
pub enum CertFault {
    /// The first faulty line, counted from 1.
    #[error("a line of the certificate is not in its format")]
    BadLine { line: u64 },
    /// The frame, counted from 0, that has fewer marks than it states.
    #[error("a frame of the certificate has too few marks")]
    Short { frame: u64 },
    /// A version other than 1 and 2: this one.
    #[error("the certificate has a version that is not known")]
    Version { found: u64 },
    #[error("memory was wanting for the certificate")]
    NoMemory,
}

impl From<word_base::NoMemory> for CertFault {
    ghost from_gives = { λ _ e. e ≡ faults.NoMemory };

    fn from(_: word_base::NoMemory) -> Self {
        CertFault::NoMemory
    }
}

impl From<AllocError> for CertFault {
    ghost from_gives = { λ _ e. e ≡ faults.NoMemory };

    fn from(_: AllocError) -> Self {
        CertFault::NoMemory
    }
}

impl<T: Drop> From<AllocFailed<T>> for CertFault {
    ghost from_gives = { λ _ e. e ≡ faults.NoMemory };

    fn from(_: AllocFailed<T>) -> Self {
        CertFault::NoMemory
    }
}
