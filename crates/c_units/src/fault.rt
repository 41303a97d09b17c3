//! Why files aren't joined.
ghost use Rattle.std.specs.Prelude.{◌≡◌};
ghost use Rattle.c_units.specs.declared.fault.UnitFault.TheVariants as faults;

use c_lexer::LexFault;
use c_parser::ParseFault;
use c_rules::TypeFault;
use std::alloc::{AllocError, AllocFailed};
use thiserror::Error;
use word_base::{NoMemory, Text};

/// Why files aren't joined. Files are numbered from 1. A place is a byte offset in its file.
#[derive(Debug, Drop, Error)]
pub enum UnitFault {
    /// The bytes of a file aren't the text of tokens.
    #[error("a file has no tokens")]
    Lex { file: u8, fault: LexFault },
    /// The tokens of a file, without the `extern`s that are dropped, have no tree.
    #[error("a file has no tree")]
    Parse { file: u8, fault: ParseFault },
    /// A node of a file breaks a rule of names and types.
    #[error("a file breaks a rule of names and types")]
    Types { file: u8, fault: TypeFault },
    /// A name ends in `__` and at least one digit, or that of a static has more than 120 characters: `at` is the first
    /// such name token of the first file that has one.
    #[error("a name is reserved")]
    Reserved { file: u8, at: u32 },
    /// An object is declared with `extern` and no initialiser, and by no file without `extern` or with an initialiser:
    /// the first by file and place, as its file spells it.
    #[error("an object is declared and not defined")]
    Undefined { name: Text },
    /// The joined tokens are more than 200,000: this many, dropped `extern`s not counted.
    #[error("there are too many tokens")]
    TooManyTokens { count: u64 },
    /// Out of memory for the joined tokens, or on the way to them.
    #[error("memory was wanting for the joined tokens")]
    NoMemory,
}

impl From<NoMemory> for UnitFault {
    ghost from_gives = { λ _ e. e ≡ faults.NoMemory };

    fn from(_: NoMemory) -> Self {
        UnitFault::NoMemory
    }
}

impl From<AllocError> for UnitFault {
    ghost from_gives = { λ _ e. e ≡ faults.NoMemory };

    fn from(_: AllocError) -> Self {
        UnitFault::NoMemory
    }
}

impl<T: Drop> From<AllocFailed<T>> for UnitFault {
    ghost from_gives = { λ _ e. e ≡ faults.NoMemory };

    fn from(_: AllocFailed<T>) -> Self {
        UnitFault::NoMemory
    }
}
