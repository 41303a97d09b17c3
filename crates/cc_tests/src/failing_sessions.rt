//! Sessions whose calls fail, each in turn. The answers were decided by hand from docs/COMMANDS.md.
use crate::commands::{list_of, status_of};
use cc_memory::{MemShelf, MemSink};
use std::process::Abort;
use std::test::Fail;
use std::thread::Threads;

/// Puts 7 to port 1, and returns it.
const SEVEN: &[u8] = b"C25 IMAGE 1\nwords 5\nc806 ca07 6005 e105 ce1f\nend\n";

const SCRIPT: &[u8] = b"break 0003\ngo 100\nmem 0305 1\ngo 100\n";

const SHOWN: &str = "stopped 0003 after 3 steps\n0305 0007\n1 0007\nreturned 0007\n";

// Follows a script over an image on no input where these calls fail, and looks at the status, at what is put and at how many files
// are fetched. Nothing is stored.
fn shows<R: Threads + Sync + AllocGlobal + Abort>(
    rt: &R,
    script: &[u8],
    fails_at: (&[u64], &[u64]),
    answer: (u8, &str),
    calls: u64,
) -> Result<(), Fail> {
    let alloc = rt.alloc();
    let (shelf_fails_at, sink_fails_at) = fails_at;
    let (status, text) = answer;
    let mut shelf = MemShelf::new(alloc, shelf_fails_at.to_vec(alloc)?);
    shelf.insert(alloc, "i", SEVEN)?;
    shelf.insert(alloc, "p", b"")?;
    shelf.insert(alloc, "s", script)?;
    let mut out = MemSink::new(alloc, sink_fails_at.to_vec(alloc)?);
    let list = list_of(alloc, &["debug", "i", "p", "s"])?;
    let ended = status_of(rt, alloc, &list, &mut shelf, &mut out);
    assert_eq!(rt; (ended, out.bytes.as_slice()), (status, text.as_bytes()));
    assert_eq!(rt; (shelf.calls, shelf.files.len()), (calls, 3));
    Ok(())
}

#[test]
fn failing_sessions(rt: HostRuntime) -> Result<(), Fail> {
    shows(&rt, SCRIPT, (&[0], &[]), (3, "read fault: i\n"), 1)?;
    shows(&rt, SCRIPT, (&[1], &[]), (3, "read fault: p\n"), 2)?;
    shows(&rt, SCRIPT, (&[2], &[]), (3, "read fault: s\n"), 3)?;
    // Neither is the line of a refusal put.
    shows(&rt, b"go 0", (&[], &[0]), (9, ""), 3)?;
    // The answer can't be put, and nothing more is.
    shows(&rt, SCRIPT, (&[3], &[0]), (4, ""), 3)?;
    // No further call is made.
    shows(&rt, SCRIPT, (&[3], &[1]), (0, SHOWN), 3)
}
