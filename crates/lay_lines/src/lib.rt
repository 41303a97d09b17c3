//! The lines of which the texts of sequences and of certificates are made: those of blocks, of lists and of marks, read and written one by one.
#![tactic(auto)]

mod block_lines;
mod fields;
mod list_lines;
mod marks;
mod writing;

pub use block_lines::read_block;
pub use fields::{read_scalars, read_step};
pub use list_lines::{is_arranged, read_list};
pub use marks::{MARKS_TO_A_LINE, is_short, push_marks};
pub use writing::{push_blocks, push_lists, push_mark_lines, push_number, push_spaced, push_step};
