//! Files and an output in memory, for tests: they tell what they hold, and fail at the calls that a test names.
#![tactic(auto)]

mod laws;
mod mem_shelf;
mod mem_sink;

pub use laws::{reliable_shelves, reliable_sinks};
pub use mem_shelf::{MemFile, MemShelf};
pub use mem_sink::MemSink;
