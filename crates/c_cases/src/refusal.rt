//! Why a source has no answer but a refusal.
use c_lexer::LexFault;
use c_parser::ParseFault;
use c_types::TypeFault;
use std::alloc::AllocError;
use word_base::NoMemory;

/// Why a source has no answer but a refusal.
#[derive(Drop)]
pub(crate) enum Refusal {
    Tokens(LexFault),
    Syntax(ParseFault),
    Types(TypeFault),
    NoMemory,
}

impl From<LexFault> for Refusal {
    fn from(fault: LexFault) -> Self {
        Refusal::Tokens(fault)
    }
}

impl From<ParseFault> for Refusal {
    fn from(fault: ParseFault) -> Self {
        Refusal::Syntax(fault)
    }
}

impl From<TypeFault> for Refusal {
    fn from(fault: TypeFault) -> Self {
        Refusal::Types(fault)
    }
}

impl From<NoMemory> for Refusal {
    fn from(_: NoMemory) -> Self {
        Refusal::NoMemory
    }
}

impl From<AllocError> for Refusal {
    fn from(_: AllocError) -> Self {
        Refusal::NoMemory
    }
}

impl Refusal {
    /// Puts the refusal behind, with places from `base` on.
    pub(crate) fn push_to(&self, out: &mut String, base: u32) -> Result<(), NoMemory> {
        match self {
            Refusal::Tokens(fault) => push_fault_of_tokens(out, *fault, base),
            Refusal::Syntax(ParseFault::Syntax { at }) => push_placed(out, "syntax", *at, base),
            Refusal::Types(fault) => Ok(write!(out, "!{fault:?}")?),
            Refusal::Syntax(ParseFault::NoMemory) | Refusal::NoMemory => push_memory(out),
        }
    }
}

fn push_fault_of_tokens(out: &mut String, fault: LexFault, base: u32) -> Result<(), NoMemory> {
    match fault {
        LexFault::BadByte { at } => push_placed(out, "bad byte", at, base),
        LexFault::OpenComment { at } => push_placed(out, "open comment", at, base),
        LexFault::BadConstant { at } => push_placed(out, "bad constant", at, base),
        LexFault::LongName { at } => push_placed(out, "long name", at, base),
        LexFault::TooManyTokens { count } => Ok(write!(out, "!too many tokens {count}")?),
        LexFault::NoMemory => push_memory(out),
    }
}

// Puts what is wrong behind, and where.
fn push_placed(out: &mut String, what: &str, at: u32, base: u32) -> Result<(), NoMemory> {
    let place = at.saturating_sub(base);
    write!(out, "!{what}@{place}")?;
    Ok(())
}

fn push_memory(out: &mut String) -> Result<(), NoMemory> {
    out.push_str("!memory")?;
    Ok(())
}
