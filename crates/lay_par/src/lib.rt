//! Searches for several arrangements, in threads: the pieces of a round run at once, and the answers are those of one thread. It knows
//! neither the language nor the machine.
#![tactic(auto)]

mod job;
mod pieces;
mod search;

pub use job::Job;
pub use search::search_all;
