//! The line that refuses a source.
ghost use Rattle.std.specs.Prelude.{◌≡◌, IfOk, string_bytes};
ghost use Rattle.cc_text.specs.SourceText.{source_line, lex_line, parse_line, type_line, plan_line, link_line, place_line, too_many_line, chain_line, limit_line, limit_name};

use c_units::{LexFault, LimitName, ParseFault, TypeFault};
use lay_profile::{BuildFault, LinkFault, PlanFault};
use std::alloc::Global;
use word_base::{NoMemory, Text};

/// The line of a fault at a place. What tells the source, where it is one of several, stands before the fault.
pub(crate) fn place_line(
    alloc: Global,
    source: &str,
    what: &str,
    at: u32,
) -> Result<String, NoMemory>
    ensures { IfOk result (λ line. string_bytes line ≡ place_line source.now what.now at) }
{
    Ok(format!(in alloc; "source refused: {source}{what} at byte {at}\n")?)
}

/// The line of more of something than there may be.
pub(crate) fn too_many_line(
    alloc: Global,
    source: &str,
    what: &str,
    count: u64,
) -> Result<String, NoMemory>
    ensures { IfOk result (λ line. string_bytes line ≡ too_many_line source.now what.now count) }
{
    Ok(format!(in alloc; "source refused: {source}too many {what} {count}\n")?)
}

// The line of functions that call one another in a circle.
fn chain_line(alloc: Global, source: &str, chain: &[Text]) -> Result<String, NoMemory>
    ensures { IfOk result (λ line. string_bytes line ≡ chain_line source.now chain.now) }
{
    let mut line = format!(in alloc; "source refused: {source}recursion")?;
    for name in chain {
        line.push_str(" ")?;
        line.push_str(name.as_str())?;
    }
    line.push_str("\n")?;
    Ok(line)
}

fn limit_name(which: LimitName) -> &'static str
    ensures { result.now ≡ limit_name which }
{
    match which {
        LimitName::Functions => "functions",
        LimitName::Parameters => "parameters",
        LimitName::Scalars => "scalars",
        LimitName::Cases => "cases",
    }
}

// The line of more of something than a limit allows.
fn limit_line(alloc: Global, source: &str, which: LimitName, count: u32) -> Result<String, NoMemory>
    ensures { IfOk result (λ line. string_bytes line ≡ limit_line source.now which count) }
{
    let name = limit_name(which);
    Ok(format!(in alloc; "source refused: {source}limit {name} {count}\n")?)
}

/// The line of a fault of types.
pub(crate) fn type_line(alloc: Global, source: &str, fault: &TypeFault) -> Result<String, NoMemory>
    ensures { IfOk result (λ line. string_bytes line ≡ type_line source.now fault.now) }
{
    match fault {
        TypeFault::Undeclared { at } => place_line(alloc, source, "undeclared", *at),
        TypeFault::Redeclared { at } => place_line(alloc, source, "redeclared", *at),
        TypeFault::Mismatch { at } => place_line(alloc, source, "mismatch", *at),
        TypeFault::NotLvalue { at } => place_line(alloc, source, "not an lvalue", *at),
        TypeFault::NotConstant { at } => place_line(alloc, source, "not constant", *at),
        TypeFault::LongConstant { at } => place_line(alloc, source, "long constant", *at),
        TypeFault::BadPort { at } => place_line(alloc, source, "bad port", *at),
        TypeFault::ArgCount { at } => place_line(alloc, source, "argument count", *at),
        TypeFault::MissingMain { at } => place_line(alloc, source, "missing main", *at),
        TypeFault::MissingBody { at } => place_line(alloc, source, "missing body", *at),
        TypeFault::Misplaced { at } => place_line(alloc, source, "misplaced", *at),
        TypeFault::Recursion { chain } => chain_line(alloc, source, chain.as_slice()),
        TypeFault::Limit { which, count } => limit_line(alloc, source, *which, *count),
        TypeFault::NoMemory => Err(NoMemory),
    }
}

/// The line of a fault of the lexer.
pub(crate) fn lex_line(alloc: Global, source: &str, fault: LexFault) -> Result<String, NoMemory>
    ensures { IfOk result (λ line. string_bytes line ≡ lex_line source.now fault) }
{
    match fault {
        LexFault::BadByte { at } => place_line(alloc, source, "bad byte", at),
        LexFault::OpenComment { at } => place_line(alloc, source, "open comment", at),
        LexFault::BadConstant { at } => place_line(alloc, source, "bad constant", at),
        LexFault::LongName { at } => place_line(alloc, source, "long name", at),
        LexFault::TooManyTokens { count } => too_many_line(alloc, source, "tokens", count),
        LexFault::NoMemory => Err(NoMemory),
    }
}

/// The line of a fault of syntax.
pub(crate) fn parse_line(alloc: Global, source: &str, fault: ParseFault) -> Result<String, NoMemory>
    ensures { IfOk result (λ line. string_bytes line ≡ parse_line source.now fault) }
{
    match fault {
        ParseFault::Syntax { at } => place_line(alloc, source, "syntax", at),
        ParseFault::NoMemory => Err(NoMemory),
    }
}

// The line of data that find no room.
fn plan_line(alloc: Global, fault: &PlanFault) -> Result<String, NoMemory>
    ensures { IfOk result (λ line. string_bytes line ≡ plan_line fault.now) }
{
    match fault {
        PlanFault::DataFull { words } => {
            Ok(format!(in alloc; "source refused: data full {words}\n")?)
        }
        PlanFault::NoMemory => Err(NoMemory),
    }
}

// The line of code that finds no room.
fn link_line(alloc: Global, fault: &LinkFault) -> Result<String, NoMemory>
    ensures { IfOk result (λ line. string_bytes line ≡ link_line fault.now) }
{
    match fault {
        LinkFault::CodeFull { words } => {
            Ok(format!(in alloc; "source refused: code full {words}\n")?)
        }
        LinkFault::NoMemory => Err(NoMemory),
    }
}

/// The line that refuses a source for a fault, with its line feed. Want of memory is no fault of one, and has none.
pub fn source_line(alloc: Global, fault: &BuildFault) -> Result<String, NoMemory>
    ensures { IfOk result (λ line. string_bytes line ≡ source_line fault.now) }
{
    match fault {
        BuildFault::Lex(why) => lex_line(alloc, "", *why),
        BuildFault::Parse(why) => parse_line(alloc, "", *why),
        BuildFault::Types(why) => type_line(alloc, "", why),
        BuildFault::Plan(why) => plan_line(alloc, why),
        BuildFault::Link(why) => link_line(alloc, why),
        BuildFault::NoMemory => Err(NoMemory),
    }
}
