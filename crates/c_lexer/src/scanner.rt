//! The token at the front of a text.
ghost use Rattle.std.specs.Prelude.{◌<◌, length, IfOk, IfErr};
ghost use Rattle.word_base.specs.Name.{IsNameStart};
ghost use Rattle.c_syntax.specs.Spelling.{IsDigit};
ghost use Rattle.c_spellings.specs.Front.{HasNoBlank};
ghost use Rattle.c_lexer.specs.Front.{BeginsWith, IsToken, IsQuote, IsSign};
ghost use Rattle.c_lexer.specs.LexFaults.{HasFlaw};

use crate::characters::character;
use crate::fault::Flaw;
use crate::runs::{name_run, number_run};
use crate::words::word;
use c_spellings::{behind, mark, number};
use c_syntax::TokenKind;
use std::alloc::Global;
use word_base::is_name_start;

/// What a token is, and the length of its spelling in bytes.
#[derive(Drop)]
pub struct Spelled {
    pub kind: TokenKind,
    pub size: usize,
}

fn word_token(alloc: Global, bytes: &[u8]) -> Result<Spelled, Flaw>
    requires { BeginsWith IsNameStart bytes.now }
    ensures token { IfOk result (λ found. IsToken bytes.now found.kind found.size) }
    ensures flaw { IfErr result (HasFlaw bytes.now) }
{
    let (run, _) = name_run(bytes);
    match word(alloc, run)? {
        Some(kind) => Ok(Spelled {
            kind,
            size: run.len(),
        }),
        None => Err(Flaw::LongName),
    }
}

fn number_token(bytes: &[u8]) -> Result<Spelled, Flaw>
    requires { BeginsWith IsDigit bytes.now }
    ensures token { IfOk result (λ found. IsToken bytes.now found.kind found.size) }
    ensures flaw { IfErr result (HasFlaw bytes.now) }
{
    let (run, _) = number_run(bytes);
    match number(run) {
        Some(kind) => Ok(Spelled {
            kind,
            size: run.len(),
        }),
        None => Err(Flaw::BadConstant),
    }
}

fn character_token(bytes: &[u8]) -> Result<Spelled, Flaw>
    requires { BeginsWith IsQuote bytes.now }
    ensures token { IfOk result (λ found. IsToken bytes.now found.kind found.size) }
    ensures flaw { IfErr result (HasFlaw bytes.now) }
{
    match character(bytes) {
        Some((value, rest)) => Ok(Spelled {
            kind: TokenKind::Char(value),
            size: bytes.len() - rest.len(),
        }),
        None => Err(Flaw::BadConstant),
    }
}

fn mark_token(bytes: &[u8]) -> Result<Spelled, Flaw>
    requires no_blank { HasNoBlank bytes.now }
    requires sign { BeginsWith IsSign bytes.now }
    ensures token { IfOk result (λ found. IsToken bytes.now found.kind found.size) }
    ensures flaw { IfErr result (HasFlaw bytes.now) }
{
    if let Some(_) = behind(bytes, b"/*") {
        return Err(Flaw::OpenComment);
    }
    match mark(bytes) {
        Some((mark, rest)) => Ok(Spelled {
            kind: TokenKind::Mark(mark),
            size: bytes.len() - rest.len(),
        }),
        None => Err(Flaw::BadByte),
    }
}

/// The token at the front of a text that begins with no blank: the longest spelling there. What is refused is the flaw
/// that stands there, or the want of memory.
pub fn token(alloc: Global, bytes: &[u8]) -> Result<Spelled, Flaw>
    requires no_blank { HasNoBlank bytes.now }
    requires some { 0 < length bytes.now }
    ensures token { IfOk result (λ found. IsToken bytes.now found.kind found.size) }
    ensures flaw { IfErr result (HasFlaw bytes.now) }
{
    match bytes[0] {
        b'\'' => character_token(bytes),
        b'0'..=b'9' => number_token(bytes),
        first if is_name_start(first) => word_token(alloc, bytes),
        _ => mark_token(bytes),
    }
}
