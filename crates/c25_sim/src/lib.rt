//! The simulator: runs an image's words on port input, step by step.
#![tactic(auto)]

mod arithmetic;
mod effect;
mod machine;
mod port_input;
mod registers;
mod run;
mod traps;

pub use machine::Machine;
pub use registers::Registers;
