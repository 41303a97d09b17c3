//! A compilation whose gate holds piece 0 of a search until piece 1 has entered.
//!
//! The source is read from standard input. Nothing is built on this program: the gate of merges runs it on the file `stdin`, and
//! compares what it puts with the file `stdout`.
#![tactic(auto)]

mod compiled;

use crate::compiled::compiled;
use std::io;

fn main(rt: HostRuntime) -> io::Result<()> {
    let source = io::read_to_string(rt.alloc(), rt.reader())?;
    match compiled(&rt, rt.alloc(), source.as_bytes()) {
        Ok(lines) => print!(rt; "{lines}"),
        Err(_) => Err(io::Error::from(io::ErrorKind::OutOfMemory)),
    }
}
