//! The laws of selection, over the definitions of runs: that it keeps what word trees do, and that typed programs, word trees and accumulator code
//! access the same. It has no code.
#![tactic(auto)]

mod access_laws;
mod select_laws;

pub use access_laws::accesses_are_kept;
pub use select_laws::{selection_keeps_runs, typed_programs_keep};
