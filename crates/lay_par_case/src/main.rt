//! A search in threads whose gate holds piece 0 until piece 1 has entered, beside the search of one thread.
//!
//! The sequence is read from standard input, and is searched over one register. Nothing is built on this program: the gate of merges
//! runs it on the file `stdin`, and compares what it puts with the file `stdout`.
#![tactic(auto)]

mod found;

use crate::found::both;
use std::io;

fn main(rt: HostRuntime) -> io::Result<()> {
    let text = io::read_to_string(rt.alloc(), rt.reader())?;
    match both(&rt, rt.alloc(), text.as_bytes()) {
        Ok(lines) => print!(rt; "{lines}"),
        Err(_) => Err(io::Error::from(io::ErrorKind::OutOfMemory)),
    }
}
