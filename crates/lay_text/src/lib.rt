//! The texts of access sequences.
#![tactic(auto)]

mod decimal;
mod fault;
mod laws;
mod lines;
mod reading;
mod writing;

pub use decimal::push_decimal;
pub use fault::SeqFault;
pub use laws::written_sequences_are_read;
pub use lay_lines::{push_blocks, push_number, push_spaced, read_block};
pub use reading::read_sequence;
pub use text_base::{front_field, read_decimal};
pub use writing::write_sequence;
