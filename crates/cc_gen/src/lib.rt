//! C programs that are made from a number.
#![tactic(auto)]

mod program;

pub use program::generate;
