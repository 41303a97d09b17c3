//! Walks: which words of data memory a function's words access through AR2 to AR5, read off the words without running them.
#![tactic(auto)]

mod access;
mod code;
mod fault;
mod known;
mod registers;
mod report;
mod targets;
mod walker;
mod walking;

pub use fault::WalkFault;
pub use report::{AddressBlock, WalkReport};
pub use walking::walk;
