//! Why sources have no expansion.
ghost use Rattle.std.specs.Prelude.{◌≡◌};
ghost use Rattle.c_macro.specs.declared.fault.MacroFault.TheVariants as macro_faults;

use c_lexer::LexFault;
use std::alloc::{AllocError, AllocFailed};
use thiserror::Error;
use word_base::NoMemory;

/// What a source has too many of.
#[derive(Clone, Copy, Debug, PartialEq, Eq)]
pub enum MacroLimit {
    /// The tokens of its expansion, of which there are at most 200,000.
    Tokens,
    /// The replacements of macros, of which there are at most 1,000,000.
    Replacements,
    /// The macros that are defined at once, of which there are at most 1,000.
    Macros,
}

/// Why a source has no expansion. A place is a byte offset in the source.
#[derive(Clone, Copy, Debug, PartialEq, Eq, Error)]
pub enum MacroFault {
    /// A byte, a constant or a name in a kept line or in a body that is no token, or a comment that isn't closed.
    #[error("the source has what is no token")]
    Lex(LexFault),
    /// A directive in a kept line that has none of the forms, at its `#`.
    #[error("a directive is not in its form")]
    Directive { at: u32 },
    /// A macro is defined again with other tokens, at its name.
    #[error("a macro is defined again with other tokens")]
    Redefined { at: u32 },
    /// An `else` or an `endif` without its section or a second `else`, at its `#`; or the last opened section that
    /// isn't closed, at the `#` that opened it.
    #[error("a section is not balanced")]
    Unbalanced { at: u32 },
    /// A limit is passed. The count is one above it: no more are counted.
    #[error("a limit is passed")]
    TooMany { what: MacroLimit, count: u32 },
    #[error("memory was wanting for the expansion")]
    NoMemory,
}

impl<T: Drop> From<AllocFailed<T>> for MacroFault {
    ghost from_gives = { λ _ e. e ≡ macro_faults.NoMemory };

    fn from(_: AllocFailed<T>) -> Self {
        MacroFault::NoMemory
    }
}

impl From<AllocError> for MacroFault {
    ghost from_gives = { λ _ e. e ≡ macro_faults.NoMemory };

    fn from(_: AllocError) -> Self {
        MacroFault::NoMemory
    }
}

impl From<NoMemory> for MacroFault {
    ghost from_gives = { λ _ e. e ≡ macro_faults.NoMemory };

    fn from(_: NoMemory) -> Self {
        MacroFault::NoMemory
    }
}
