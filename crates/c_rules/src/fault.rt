//! Why a source has no typed program.
ghost use Rattle.std.specs.Prelude.{◌≡◌};
ghost use Rattle.c_rules.specs.declared.fault.Refusal.TheVariants as refusals;
ghost use Rattle.c_rules.specs.declared.fault.TypeFault.TheVariants as faults;
ghost use Rattle.c_rules.specs.declared.fault.Rule.TheVariants as rule;

use std::alloc::{AllocError, AllocFailed};
use thiserror::Error;
use word_base::{Items, Text};

/// The counts of a program that have a limit.
#[derive(Clone, Copy, Debug, PartialEq, Eq)]
pub enum LimitName {
    /// Functions with bodies: 256.
    Functions,
    /// Parameters of a function with a body: 31.
    Parameters,
    /// Frame scalars of a function, its temporaries counted: 64.
    Scalars,
    /// Cases of a switch: 256.
    Cases,
}

/// Why a tree has no typed program. A place is a byte offset of the source. The kinds are answered in this order of the walk and,
/// at one node, of the list: a rule that a node breaks, then what is wanted of the whole source (docs/LANGUAGE.md, "Types").
#[derive(Debug, Drop, Error)]
pub enum TypeFault {
    #[error("a name isn't declared")]
    Undeclared { at: u32 },
    #[error("a name or a label stands twice")]
    Redeclared { at: u32 },
    #[error("types don't agree")]
    Mismatch { at: u32 },
    #[error("no object stands where one is written")]
    NotLvalue { at: u32 },
    #[error("a value isn't constant")]
    NotConstant { at: u32 },
    #[error("a constant isn't of 16 bits")]
    LongConstant { at: u32 },
    #[error("a port isn't from 0 to 15")]
    BadPort { at: u32 },
    #[error("a call hasn't as many arguments as its function has parameters")]
    ArgCount { at: u32 },
    /// `int main(void)` isn't defined. The place is 0.
    #[error("there is no main function")]
    MissingMain { at: u32 },
    /// The place is that of the first call of a function without a body.
    #[error("a function that is called has no body")]
    MissingBody { at: u32 },
    #[error("a word or a statement stands where it may not")]
    Misplaced { at: u32 },
    /// The names of the first function, in order of definition, that reaches itself by calls, of the functions on a shortest way
    /// round, and of the first again. Among the shortest ways it is the least by the order of definition.
    #[error("a function reaches itself by calls")]
    Recursion { chain: Items<Text> },
    /// The first count, in the order of `LimitName` and then of the source, that passes its limit.
    #[error("a count passes its limit")]
    Limit { which: LimitName, count: u32 },
    #[error("memory was wanting for the typed program")]
    NoMemory,
}

/// The rules of names and types that a node may break, in the order in which they are answered.
#[derive(Clone, Copy, PartialEq, Eq)]
pub enum Rule {
    /// A name is declared before its use.
    Undeclared,
    /// A name is declared once per scope; cases differ.
    Redeclared,
    /// Types agree.
    Mismatch,
    /// What is assigned to, stepped or pointed to is an object.
    NotLvalue,
    /// A value is known before the program runs.
    NotConstant,
    /// A constant is of 16 bits.
    LongConstant,
    /// A port is from 0 to 15.
    BadPort,
    /// A call has as many arguments as its function has parameters.
    ArgCount,
    /// A word or statement stands where it may.
    Misplaced,
}

/// A refusal within the checker.
#[derive(Clone, Copy, PartialEq, Eq)]
pub enum Refusal {
    /// The rule that is broken, and the place of the node that breaks it, in bytes.
    Broken { rule: Rule, at: u32 },
    NoMemory,
}

/// Types that don't agree, at the node of this place.
pub fn mismatch(at: u32) -> Refusal
    ensures { result ≡ refusals.Broken rule.Mismatch at }
{
    Refusal::Broken {
        rule: Rule::Mismatch,
        at,
    }
}

impl From<word_base::NoMemory> for Refusal {
    ghost from_gives = { λ _ e. e ≡ refusals.NoMemory };

    fn from(_: word_base::NoMemory) -> Self {
        Refusal::NoMemory
    }
}

impl From<AllocError> for Refusal {
    ghost from_gives = { λ _ e. e ≡ refusals.NoMemory };

    fn from(_: AllocError) -> Self {
        Refusal::NoMemory
    }
}

impl<T: Drop> From<AllocFailed<T>> for Refusal {
    ghost from_gives = { λ _ e. e ≡ refusals.NoMemory };

    fn from(_: AllocFailed<T>) -> Self {
        Refusal::NoMemory
    }
}

impl From<word_base::NoMemory> for TypeFault {
    ghost from_gives = { λ _ e. e ≡ faults.NoMemory };

    fn from(_: word_base::NoMemory) -> Self {
        TypeFault::NoMemory
    }
}

impl From<AllocError> for TypeFault {
    ghost from_gives = { λ _ e. e ≡ faults.NoMemory };

    fn from(_: AllocError) -> Self {
        TypeFault::NoMemory
    }
}

impl<T: Drop> From<AllocFailed<T>> for TypeFault {
    ghost from_gives = { λ _ e. e ≡ faults.NoMemory };

    fn from(_: AllocFailed<T>) -> Self {
        TypeFault::NoMemory
    }
}

impl From<Refusal> for TypeFault {
    ghost use Rattle.c_rules.specs.Faults.{fault_of};

    ghost from_gives = { λ r e. e ≡ fault_of r };

    fn from(refusal: Refusal) -> Self {
        let Refusal::Broken { rule, at } = refusal else {
            return TypeFault::NoMemory;
        };
        match rule {
            Rule::Undeclared => TypeFault::Undeclared { at },
            Rule::Redeclared => TypeFault::Redeclared { at },
            Rule::Mismatch => TypeFault::Mismatch { at },
            Rule::NotLvalue => TypeFault::NotLvalue { at },
            Rule::NotConstant => TypeFault::NotConstant { at },
            Rule::LongConstant => TypeFault::LongConstant { at },
            Rule::BadPort => TypeFault::BadPort { at },
            Rule::ArgCount => TypeFault::ArgCount { at },
            Rule::Misplaced => TypeFault::Misplaced { at },
        }
    }
}
