//! The tokens that a source expands to, within their limits.
ghost use Rattle.std.specs.Prelude.{◌≡◌, ◌+◌, ◌≤◌, [], ◌∷◌, OnOk, IfErr};
ghost use Rattle.c_macro.specs.Macros.{Answers, Replaces};
ghost use Rattle.c_macro.specs.Expands.{nothing_yet};
ghost use Rattle.c_macro.specs.Expanding.{output_of, TakesTo, StopsOn, room_of};

use crate::fault::{MacroFault, MacroLimit};
use c_syntax::{MOST_TOKENS, Token};
use std::alloc::Global;

/// The most replacements of macros.
const MOST_REPLACEMENTS: u32 = 1_000_000;

/// The tokens that are answered, and how many macros were replaced.
#[derive(Drop)]
pub(crate) struct Output {
    pub(crate) tokens: Vec<Token>,
    pub(crate) replacements: u32,
}

impl Output {
    /// No tokens.
    pub(crate) fn new(alloc: Global) -> Self
        ensures { output_of result ≡ nothing_yet }
    {
        Output {
            tokens: Vec::new(alloc),
            replacements: 0,
        }
    }

    /// Answers one more token.
    pub(crate) fn answer(&mut self, token: Token) -> Result<(), MacroFault>
        ensures answered { OnOk result (TakesTo self.old (Answers token ∷ []) self.new) }
        ensures used { OnOk result (room_of self.new + 1 ≤ room_of self.old) }
        ensures stopped { IfErr result (StopsOn self.old (Answers token ∷ [])) }
    {
        if self.tokens.len() >= MOST_TOKENS {
            return Err(MacroFault::TooMany {
                what: MacroLimit::Tokens,
                count: MOST_TOKENS as u32 + 1,
            });
        }
        self.tokens.push(token)?;
        Ok(())
    }

    /// Counts one more replacement.
    pub(crate) fn count_replacement(&mut self) -> Result<(), MacroFault>
        ensures counted { OnOk result (TakesTo self.old (Replaces ∷ []) self.new) }
        ensures used { OnOk result (room_of self.new + 2 ≤ room_of self.old) }
        ensures stopped { IfErr result (StopsOn self.old (Replaces ∷ [])) }
    {
        if self.replacements >= MOST_REPLACEMENTS {
            return Err(MacroFault::TooMany {
                what: MacroLimit::Replacements,
                count: MOST_REPLACEMENTS + 1,
            });
        }
        self.replacements += 1;
        Ok(())
    }
}
