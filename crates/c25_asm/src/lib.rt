//! The assembler: assembler text as words.
#![tactic(auto)]

mod assembling;
mod cuts;
mod fault;
mod forms;
mod labels;
mod laws;
mod lines;
mod numbers;
mod operands;
mod rows;
mod statement;

pub use assembling::assemble;
pub use fault::AsmFault;
pub use laws::texts_are_read;
pub use statement::{LineFault, LineWords, Place};
