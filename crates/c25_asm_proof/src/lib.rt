//! What is known of listings and the assembler, as a law over the definitions of both.
#![tactic(auto)]

mod laws;

pub use laws::listings_are_assembled;
