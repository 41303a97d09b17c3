//! The rules of names and types of a C source, and their laws: ISO 9899:1990 6.1 to 6.7 (docs/LANGUAGE.md, "Types").
//!
//! The folder `specs` says what the rules make of each part of a source, up to its typed program or the first rule that is broken.
//! The folder `proofs` has the laws of this: a source has one typed program or one fault, and a typed program is well formed. The
//! code that computes it stands in the crates above.
#![tactic(auto)]

mod class;
mod fault;
mod local;
mod meaning;

pub use class::Class;
pub use fault::{LimitName, Refusal, Rule, TypeFault, mismatch};
pub use local::{Local, Naming, number_in};
pub use meaning::{Declared, FunctionType, Meaning, ObjectType};
