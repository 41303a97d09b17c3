//! The part of the parser that reads declarations from the front of the tokens that are left (docs/LANGUAGE.md, "Grammar").
#![tactic(auto)]

mod declarations;

pub use declarations::{declaration, declaration_from, item_from, item_kind, name, params};
