//! What `pre` makes of sources without directives: their programs.
#![tactic(auto)]

mod laws;

pub use laws::plain_sources_keep_their_programs;
