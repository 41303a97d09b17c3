//! The parser: from the tokens of a C source to its tree (docs/LANGUAGE.md, "Grammar").
#![tactic(auto)]

mod fault;
mod units;

pub use fault::ParseFault;
pub use units::parse;
