//! What the usual words of each command ask for, as a law over the function that says what any words ask for.
#![tactic(auto)]

mod plain;

pub use plain::plain_words;
