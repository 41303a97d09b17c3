//! The laws that emitted code does what the accumulator code of a function says: instructions beside operations, the operands that they reach, marks
//! and jumps, dispatches and loops that clear words, and the items of a whole body, from the entries that stand in program memory. It has no code.
#![tactic(auto)]

mod flow_laws;
mod laws;
mod row_laws;

pub use flow_laws::marks_are_right;
pub use laws::code_meets;
pub use row_laws::{rows_do_operations, runs_do_operations};
