//! The files and the output that the commands work on, and those of the operating system.
#![tactic(auto)]

mod file_shelf;
mod out_sink;
mod shelf;
mod sink;
mod stream;

pub use file_shelf::FileShelf;
pub use out_sink::OutSink;
pub use shelf::{Shelf, ShelfFault};
pub use sink::{Sink, SinkFault};
