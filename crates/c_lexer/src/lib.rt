//! The lexer: from the bytes of a C source to its tokens (ISO 9899:1990 6.1), and from tokens to a text that has them.
//!
//! The tokens are those of `Lexes`, a definition of `c_syntax`: a text is blanks and spellings, one behind another, and
//! each spelling is the longest that begins at its place. A refusal names the first fault in the text.
#![tactic(auto)]

mod characters;
mod fault;
mod laws;
mod lexer;
mod runs;
mod scanner;
mod words;
mod writing;

pub use c_fixed_texts::{keyword, keyword_text};
pub use c_spellings::{behind_blank, behind_end, mark, number};
pub use characters::character;
pub use fault::{Flaw, LexFault};
pub use laws::{one_outcome, tokens_have_spellings};
pub use lexer::lex;
pub use runs::name_run;
pub use scanner::{Spelled, token};
pub use words::word;
pub use writing::{push_token_text, token_text};
