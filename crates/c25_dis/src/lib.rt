//! The disassembler: words as assembler text.
#![tactic(auto)]

mod hex;
mod laws;
mod line;
mod operands;
mod part;
mod writing;

pub use laws::lines_stand_for_words;
pub use line::Line;
pub use part::Part;
pub use writing::listing;
