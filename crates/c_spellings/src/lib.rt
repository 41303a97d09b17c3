//! What stands at the front of a text, and how long it is: blanks, marks and the digits of numbers (ISO 9899:1990 6.1).
#![tactic(auto)]

mod blank;
mod digits;
mod marks;
mod numbers;
mod prefix;

pub use blank::{behind_blank, behind_end};
pub use digits::digits_value;
pub use marks::mark;
pub use numbers::number;
pub use prefix::behind;
