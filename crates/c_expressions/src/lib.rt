//! The part of the parser that reads types and expressions from the front of the tokens that are left (docs/LANGUAGE.md,
//! "Grammar").
//!
//! A part takes the tokens of a row of the grammar, or says that no way of the row leads on from there.
#![tactic(auto)]

mod expressions;
mod operands;
mod operators;
mod parser;
mod steps;
mod wholes;

pub use c_cursor::{Cursor, Refusal};
pub use parser::{Parser, Tall};
pub use steps::{add, both, boxed, ended, kept, separated};
