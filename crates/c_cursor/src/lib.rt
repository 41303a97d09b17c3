//! Where a parser stands in its tokens, and what it takes by the next one or two of them (docs/LANGUAGE.md, "Grammar").
#![tactic(auto)]

mod cursor;
mod fault;
mod lookahead;

pub use cursor::Cursor;
pub use fault::Refusal;
