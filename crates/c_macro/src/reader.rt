//! The tokens of a line, one after another.
ghost use Rattle.std.specs.Prelude.{◌≡◌, ◌<◌, ◌≤◌, [], ◌∷◌, length, MatchOption, IfSome, IfOk, IfErr};
ghost use Rattle.c_spellings.specs.Front.{HasNoBlank};
ghost use Rattle.c_macro.specs.Views.{IsFaultOf, IsAtEnd, ReadsOn, IsFlawed, IsBody, IsFlawedBody};

use crate::fault::MacroFault;
use c_lexer::{Flaw, behind_blank, token};
use c_syntax::{Token, TokenKind};
use std::alloc::Global;

/// What is left of a line to read.
#[derive(Clone, Copy)]
pub(crate) struct Reader<'a> {
    pub(crate) rest: &'a [u8],
    /// Where the line ends in the source.
    pub(crate) end: u32,
}

// The fault of a flaw at a place.
fn fault_at(flaw: Flaw, at: u32) -> MacroFault
    ensures { IsFaultOf flaw at result }
{
    match flaw {
        Flaw::NoMemory => MacroFault::NoMemory,
        flaw => MacroFault::Lex(flaw.at(at)),
    }
}

impl<'a> Reader<'a> {
    // Passes over the blanks in front.
    #[tactic(auto, using(crate::proofs::ReadingLemmas::reads_none))]
    fn skip_blanks(&mut self)
        ensures reads { ReadsOn self.old self.new [] }
        ensures no_blank { HasNoBlank self.new.rest.now }
        ensures shorter { length self.new.rest.now ≤ length self.old.rest.now }
    {
        while let Some(after) = behind_blank(self.rest) {
            self.rest = after;
        }
    }

    /// The next token, where one is left; the flaw that stands there is refused.
    pub(crate) fn next(&mut self, alloc: Global) -> Result<Option<Token>, MacroFault>
        requires placed { length self.old.rest.now ≤ self.old.end }
        ensures reads { IfOk result (λ found. MatchOption found (IsAtEnd self.old self.new) (λ t. ReadsOn self.old self.new (t ∷ []))) }
        ensures shorter { IfOk result (λ found. IfSome found (λ t. length self.new.rest.now < length self.old.rest.now)) }
        ensures placed { length self.new.rest.now ≤ self.new.end }
        ensures flawed { IfErr result (IsFlawed self.old) }
    {
        self.skip_blanks();
        if self.rest.is_empty() {
            return Ok(None);
        }
        let at = self.end - self.rest.len() as u32;
        match token(alloc, self.rest) {
            Ok(found) => {
                let (spelling, after) = self.rest.split_at(found.size);
                self.rest = after;
                Ok(Some(Token {
                    kind: found.kind,
                    at,
                    len: spelling.len() as u32,
                }))
            }
            Err(flaw) => Err(fault_at(flaw, at)),
        }
    }
}

/// The kinds of the tokens of a text that ends at a place.
#[tactic(auto, using(crate::proofs::ReadingLemmas::has_read_none))]
pub(crate) fn read_body(alloc: Global, text: &[u8], end: u32) -> Result<Vec<TokenKind>, MacroFault>
    requires { length text.now ≤ end }
    ensures body { IfOk result (λ body. IsBody text.now end body.items) }
    ensures flawed { IfErr result (IsFlawedBody text.now end) }
{
    let mut reader = Reader { rest: text, end };
    let mut body = Vec::new(alloc);
    while let Some(token) = reader.next(alloc)? {
        body.push(token.kind)?;
    }
    Ok(body)
}
