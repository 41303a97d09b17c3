//! Linking: pieces of code one behind another become a program image.
#![tactic(auto)]

mod code;
mod fault;
mod functions;
mod linker;
mod marks;
mod names;
mod sizes;

pub use fault::LinkFault;
pub use linker::{CODE_WORDS, link};
pub use sizes::counted_words;
