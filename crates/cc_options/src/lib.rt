//! The words of a command line by a table of what a command has: its names, and its numbers, each a word or an option.
//! This alone calls `clap`; what it gives are plain values.
#![tactic(auto)]

mod command;
mod given;
mod table;
mod words;

pub use given::Given;
pub use table::{Form, Names, Number, Table};
pub use words::read;
