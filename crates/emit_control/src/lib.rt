//! The structure of code: from the items of a function of accumulator code to the items of its piece, with labels, marks and jumps.
//!
//! The folder `specs` gives it in two steps: items become entries, in which labels are numbers, and entries become items of a piece, by what
//! stands before them.
#![tactic(auto)]

mod cases;
mod code;
mod ending;
mod flow;
mod function;
mod items;
mod named;
mod setting;
mod state;
mod tests;
mod ways;

pub use emit_blocks::{ScalarPlace, Site};
pub use function::function_items;
pub use setting::{Setting, Words};
pub use state::Before;
pub use ways::Ways;
