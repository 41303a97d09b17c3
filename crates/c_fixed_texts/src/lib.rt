//! The texts that C gives a meaning of their own: keywords and marks (ISO 9899:1990 6.1.1, 6.1.5 and 6.1.6).
#![tactic(auto)]

mod keywords;
mod marks;
mod spellings;

pub use keywords::keyword;
pub use marks::{mark_of_one, mark_of_three, mark_of_two};
pub use spellings::{keyword_text, mark_text};
