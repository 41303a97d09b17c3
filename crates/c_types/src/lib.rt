//! The types of a C source: from its tree to the typed program (docs/LANGUAGE.md, "Types").
//!
//! The rules and their laws stand in `c_rules`. Here are the bodies of functions, the parts of file scope, and the check.
#![tactic(auto)]

mod blocks;
mod labels;
mod laws;
mod program;
mod statements;
mod units;

pub use c_rules::{LimitName, TypeFault};
pub use laws::{one_fault, one_typed_program, typed_is_accepted, typed_is_well_formed};
pub use program::check;
