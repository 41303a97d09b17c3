//! Why sources have no tokens.
ghost use Rattle.std.specs.Prelude.{◌≡◌};
ghost use Rattle.c_lexer.specs.declared.fault.LexFault.TheVariants as lex_faults;
ghost use Rattle.c_lexer.specs.declared.fault.Flaw.TheVariants as flaws;
ghost use Rattle.c_lexer.specs.LexFaults.{fault_of};

use std::alloc::AllocFailed;
use thiserror::Error;
use word_base::NoMemory;

/// Why a text has no tokens. A place is a byte offset in the text.
#[derive(Clone, Copy, Debug, PartialEq, Eq, Error)]
pub enum LexFault {
    /// A byte with which no blank and no token begins.
    #[error("a byte begins no token")]
    BadByte { at: u32 },
    /// A comment that isn't closed, at its start.
    #[error("a comment is not closed")]
    OpenComment { at: u32 },
    /// A digit with letters, digits and dots behind it that together are no number, or a quote that begins no
    /// character constant.
    #[error("a constant is not in its form")]
    BadConstant { at: u32 },
    /// A name of more than 127 characters, at its start.
    #[error("a name has more than 127 characters")]
    LongName { at: u32 },
    /// There are more tokens than 200,000. The count is 200,001: no more are read.
    #[error("there are too many tokens")]
    TooManyTokens { count: u64 },
    #[error("memory was wanting for the tokens")]
    NoMemory,
}

impl<T: Drop> From<AllocFailed<T>> for LexFault {
    ghost from_gives = { λ _ e. e ≡ lex_faults.NoMemory };

    fn from(_: AllocFailed<T>) -> Self {
        LexFault::NoMemory
    }
}

/// Why no token stands at the front of a text.
#[derive(Clone, Copy, Debug, PartialEq, Eq)]
pub enum Flaw {
    /// A byte with which no blank and no token begins.
    BadByte,
    /// A comment that isn't closed.
    OpenComment,
    /// A digit with letters, digits and dots behind it that together are no number, or a quote that begins no
    /// character constant.
    BadConstant,
    /// A name of more than 127 characters.
    LongName,
    /// Memory was wanting for the token.
    NoMemory,
}

impl From<NoMemory> for Flaw {
    ghost from_gives = { λ _ e. e ≡ flaws.NoMemory };

    fn from(_: NoMemory) -> Self {
        Flaw::NoMemory
    }
}

impl Flaw {
    /// The fault of a text that has this flaw at a place.
    pub fn at(self, at: u32) -> LexFault
        ensures { result ≡ fault_of self at }
    {
        match self {
            Flaw::BadByte => LexFault::BadByte { at },
            Flaw::OpenComment => LexFault::OpenComment { at },
            Flaw::BadConstant => LexFault::BadConstant { at },
            Flaw::LongName => LexFault::LongName { at },
            Flaw::NoMemory => LexFault::NoMemory,
        }
    }
}
