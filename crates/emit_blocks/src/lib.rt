//! Runs: the instructions of operations of accumulator code that stand one behind another.
//!
//! A scalar is reached through the address register that goes over its list, by post-increment and post-decrement where its next access
//! lies beside it. The folder `specs` says which instructions those of a run are.
#![tactic(auto)]

mod accumulator;
mod append;
mod known;
mod laws;
mod lookahead;
mod operations;
mod rows;
mod run;
mod site;
mod step;

pub use accumulator::ToAccumulator;
pub use laws::runs_fit;
pub use operations::steps_of;
pub use run::append_run;
pub use site::{ScalarPlace, Site};
pub use step::{Reach, Step};
