//! Routines for what the machine has no instruction for: division, remainders and shifts to the right by a count that is no constant.
#![tactic(auto)]

mod called;
mod laws;
mod line;
mod pieces;
mod routine;
mod tables;

pub use laws::{helper_pieces_fit, routines_answer};
pub use pieces::{called_helpers, helpers};
pub use routine::Routine;
