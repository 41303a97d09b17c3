//! Sources with other names and places: they have the same trees and typed programs but for these.
#![tactic(auto)]

mod laws;

pub use laws::{renamed_tokens_derive, renamed_trees_are_typed};
