//! The tokens of a text, one behind another.
ghost use Rattle.std.specs.Prelude.{◌≡◌, ◌≢◌, ◌<◌, ◌≤◌, ◌^◌, ℕ, List, length, IfOk, IfErr, MatchResult};
ghost use Rattle.c_syntax.specs.declared.token.Token.{Token};
ghost use Rattle.c_syntax.specs.Lexes.{Lexes, ReadsTo, most_tokens};
ghost use Rattle.c_spellings.specs.Front.{HasNoBlank};
ghost use Rattle.c_lexer.specs.LexFaults.{Says};
ghost use Rattle.c_lexer.specs.declared.fault.LexFault.{LexFault};
ghost use Rattle.c_lexer.specs.declared.fault.LexFault.TheVariants as lex_faults;

use crate::fault::LexFault;
use crate::scanner::token;
use c_spellings::behind_blank;
use c_syntax::{MOST_TOKENS, Token};
use std::alloc::Global;

// Puts the token at the front of the rest behind the others, and gives what stands behind it.
fn push_token<'a>(
    alloc: Global,
    bytes: &[u8],
    rest: &'a [u8],
    tokens: &mut Vec<Token>,
) -> Result<&'a [u8], LexFault>
    requires places { length bytes.now < 2 ^ 32 }
    requires reads { ReadsTo bytes.now tokens.old.items rest.now }
    requires few { length tokens.old.items ≤ most_tokens }
    requires some { 0 < length rest.now }
    requires no_blank { HasNoBlank rest.now }
    ensures reads { IfOk result (λ after. ReadsTo bytes.now tokens.new.items after.now) }
    ensures few { IfOk result (λ after. length tokens.new.items ≤ most_tokens) }
    ensures shorter { IfOk result (λ after. length after.now < length rest.now) }
    ensures fault { IfErr result (Says bytes.now) }
{
    let at = (bytes.len() - rest.len()) as u32;
    let found = match token(alloc, rest) {
        Ok(found) => found,
        Err(flaw) => return Err(flaw.at(at)),
    };
    if tokens.len() == MOST_TOKENS {
        return Err(LexFault::TooManyTokens {
            count: MOST_TOKENS as u64 + 1,
        });
    }
    let (spelling, after) = rest.split_at(found.size);
    tokens.push(Token {
        kind: found.kind,
        at,
        len: spelling.len() as u32,
    })?;
    Ok(after)
}

/// The tokens of a text, in order: names, keywords, constants and marks between blanks, each the longest that begins at its
/// place (ISO 9899:1990 6.1). A place is a byte offset in the text.
///
/// A refusal names the first fault in the text: a byte with which nothing begins, a comment that isn't closed, a constant
/// that isn't in its form, a name of more than 127 characters, or the 200,001st token.
pub fn lex(alloc: Global, bytes: &[u8]) -> Result<Vec<Token>, LexFault>
    requires places { length bytes.now < 2 ^ 32 }
    // What is answered are the tokens of the text.
    ensures tokens { IfOk result (λ tokens. Lexes bytes.now tokens.items) }
    // Where the text has tokens they are answered, unless memory is wanting.
    ensures lexed { (tokens : List Token) → Lexes bytes.now tokens
        → MatchResult result (λ found. found.items ≡ tokens) (λ fault. fault ≡ lex_faults.NoMemory) }
    // Each fault has its cause.
    ensures fault { IfErr result (Says bytes.now) }
    // Where the text has a cause its fault is answered, unless memory is wanting.
    ensures faulty { (cause : LexFault) → cause ≢ lex_faults.NoMemory → Says bytes.now cause
        → MatchResult result (λ found. ⊥) (λ fault. fault ≢ lex_faults.NoMemory → fault ≡ cause) }
{
    let mut tokens = Vec::new(alloc);
    let mut rest = bytes;
    while !rest.is_empty() {
        rest = match behind_blank(rest) {
            Some(after) => after,
            None => push_token(alloc, bytes, rest, &mut tokens)?,
        };
    }
    Ok(tokens)
}
