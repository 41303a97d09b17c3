//! What the texts of all formats are made of: lines, fields, and numbers in decimal and hexadecimal digits.
#![tactic(auto)]

mod decimal;
mod fields;
mod filled_lines;
mod hex;
mod lines;

pub use decimal::{push_decimal, read_decimal};
pub use fields::{behind_word, front_field, front_until, number_behind, read_pair};
pub use filled_lines::FilledLines;
pub use hex::{front_spaced, front_word, push_hex, read_hex};
pub use lines::{front_line, next_line};
