//! The replay of each frame of a certificate, twice, since a replay that ended with a fault is no hindrance to the next; and the
//! certificate written again.
//!
//! The certificate is read from standard input. Nothing is built on this program: the gate of merges runs it on the file `stdin`, and
//! compares what it puts with the file `stdout`.
#![tactic(auto)]

use lay_cert::{CertFault, CertFrame, Replay, read_cert, write_cert};
use std::alloc::Global;
use std::io;

/// No certificate is longer.
const MOST_BYTES: usize = 536_870_912;

fn main(rt: HostRuntime) -> io::Result<()> {
    let text = io::read_to_string(rt.alloc(), rt.reader())?;
    match replay_all(rt.alloc(), text.as_bytes()) {
        Ok(lines) => print!(rt; "{lines}"),
        Err(fault) => print!(rt; "{fault}\n"),
    }
}

// A line for each frame, and one that says whether the certificate is written as it was read.
fn replay_all(alloc: Global, text: &[u8]) -> Result<String, CertFault> {
    if text.len() > MOST_BYTES {
        return Err(CertFault::NoMemory);
    }
    let mut lines = String::new(alloc);
    let certificate = read_cert(alloc, text)?;
    for frame in &certificate.frames {
        push_verdicts(alloc, &mut lines, frame)?;
    }
    lines.push_str(if write_cert(alloc, &certificate)?.as_slice() == text {
        "written alike\n"
    } else {
        "written otherwise\n"
    })?;
    Ok(lines)
}

// Its name, and what the two replays show.
fn push_verdicts(alloc: Global, lines: &mut String, frame: &CertFrame) -> Result<(), CertFault> {
    let mut replay = Replay::new(alloc, frame)?;
    let first = replay.replay(frame);
    let second = replay.replay(frame);
    lines.push_str(frame.name())?;
    lines.push_str(&format!(in alloc; ": {first:?}, {second:?}\n")?)?;
    Ok(())
}
