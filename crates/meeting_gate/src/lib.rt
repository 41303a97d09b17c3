//! A gate that shows whether two pieces of a search run at once. Nothing is built on it but programs of cases.
#![tactic(auto)]

mod meeting;

pub use meeting::Meeting;
