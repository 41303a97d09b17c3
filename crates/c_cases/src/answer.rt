//! The answers: tokens, trees, programs, accesses and refusals.
ghost use Rattle.std.specs.Prelude.{◌<◌, ◌^◌, length};

use crate::accesses_text::{push_access_counts, push_accesses};
use crate::refusal::Refusal;
use crate::token_text::push_tokens;
use crate::tree_text::push_tree;
use crate::typed_text::push_program;
use c_lexer::lex;
use c_parser::parse;
use c_syntax::Unit;
use c_tree::Program;
use c_types::check;
use std::alloc::Global;
use word_base::NoMemory;

/// What is asked of a source.
#[derive(Clone, Copy, PartialEq, Eq)]
pub(crate) enum Kind {
    Tokens,
    /// How many tokens.
    Count,
    /// Whether there is a tree.
    Reads,
    Tree,
    /// The tree with places.
    Places,
    Program,
    /// The access sequence of each function.
    Accesses,
    /// How many accesses in how many blocks.
    AccessCounts,
}

impl Kind {
    /// The kind that a word names.
    pub(crate) fn of(word: &str) -> Option<Self> {
        match word {
            "tokens" => Some(Kind::Tokens),
            "count" => Some(Kind::Count),
            "reads" => Some(Kind::Reads),
            "tree" => Some(Kind::Tree),
            "places" => Some(Kind::Places),
            "program" => Some(Kind::Program),
            "accesses" => Some(Kind::Accesses),
            "access-counts" => Some(Kind::AccessCounts),
            _ => None,
        }
    }

    pub(crate) fn word(self) -> &'static str {
        match self {
            Kind::Tokens => "tokens",
            Kind::Count => "count",
            Kind::Reads => "reads",
            Kind::Tree => "tree",
            Kind::Places => "places",
            Kind::Program => "program",
            Kind::Accesses => "accesses",
            Kind::AccessCounts => "access-counts",
        }
    }
}

/// Puts the answer to a question behind, with places from `base` on.
pub(crate) fn push_answer(
    alloc: Global,
    out: &mut String,
    kind: Kind,
    source: &[u8],
    base: usize,
) -> Result<(), NoMemory> {
    if source.len() >= 4_294_967_296 || base >= 4_294_967_296 {
        out.push_str("!length")?;
        return Ok(());
    }
    let base = base as u32;
    match push_shown(alloc, out, kind, source, base) {
        Ok(()) => Ok(()),
        Err(refusal) => refusal.push_to(out, base),
    }
}

fn push_shown(
    alloc: Global,
    out: &mut String,
    kind: Kind,
    source: &[u8],
    base: u32,
) -> Result<(), Refusal>
    requires short { length source.now < 2 ^ 32 }
{
    match kind {
        Kind::Tokens => push_tokens_of(alloc, out, source),
        Kind::Count => push_count(alloc, out, source),
        Kind::Reads => push_whether_read(alloc, out, source),
        Kind::Tree => push_tree_of(alloc, out, source, None),
        Kind::Places => push_tree_of(alloc, out, source, Some(base)),
        Kind::Program => push_program_of(alloc, out, source, base),
        Kind::Accesses => push_accesses_of(alloc, out, source),
        Kind::AccessCounts => push_access_counts_of(alloc, out, source),
    }
}

fn push_tokens_of(alloc: Global, out: &mut String, source: &[u8]) -> Result<(), Refusal>
    requires short { length source.now < 2 ^ 32 }
{
    let tokens = lex(alloc, source)?;
    Ok(push_tokens(out, &tokens)?)
}

fn push_count(alloc: Global, out: &mut String, source: &[u8]) -> Result<(), Refusal>
    requires short { length source.now < 2 ^ 32 }
{
    let count = lex(alloc, source)?.len();
    write!(out, "{count} tokens")?;
    Ok(())
}

fn push_whether_read(alloc: Global, out: &mut String, source: &[u8]) -> Result<(), Refusal>
    requires short { length source.now < 2 ^ 32 }
{
    tree(alloc, source)?;
    out.push_str("a tree")?;
    Ok(())
}

fn push_tree_of(
    alloc: Global,
    out: &mut String,
    source: &[u8],
    base: Option<u32>,
) -> Result<(), Refusal>
    requires short { length source.now < 2 ^ 32 }
{
    let unit = tree(alloc, source)?;
    Ok(push_tree(alloc, out, unit.externals(), base)?)
}

fn push_program_of(alloc: Global, out: &mut String, source: &[u8], base: u32) -> Result<(), Refusal>
    requires short { length source.now < 2 ^ 32 }
{
    let program = typed_program(alloc, source)?;
    Ok(push_program(alloc, out, &program, base)?)
}

fn push_accesses_of(alloc: Global, out: &mut String, source: &[u8]) -> Result<(), Refusal>
    requires short { length source.now < 2 ^ 32 }
{
    let program = typed_program(alloc, source)?;
    Ok(push_accesses(alloc, out, &program)?)
}

fn push_access_counts_of(alloc: Global, out: &mut String, source: &[u8]) -> Result<(), Refusal>
    requires short { length source.now < 2 ^ 32 }
{
    let program = typed_program(alloc, source)?;
    Ok(push_access_counts(alloc, out, &program)?)
}

fn tree(alloc: Global, source: &[u8]) -> Result<Unit, Refusal>
    requires short { length source.now < 2 ^ 32 }
{
    let tokens = lex(alloc, source)?;
    Ok(parse(alloc, &tokens)?)
}

fn typed_program(alloc: Global, source: &[u8]) -> Result<Program, Refusal>
    requires short { length source.now < 2 ^ 32 }
{
    let tokens = lex(alloc, source)?;
    let unit = parse(alloc, &tokens)?;
    Ok(check(alloc, &unit)?)
}
