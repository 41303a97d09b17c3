//! The part of the parser that reads statements from the front of the tokens that are left (docs/LANGUAGE.md, "Grammar").
#![tactic(auto)]

mod statements;

pub use statements::{BlockBody, body};
