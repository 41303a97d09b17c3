//! Whole files over `read` and `write` alone, so that each byte read is counted.
ghost use Rattle.std.specs.Prelude.{◌≤◌, IfOk, OnOk, IfErr, IsTrue, vec_len};
ghost use Rattle.std.specs.Io.KnownBytes.{Appends, Consumes, IsAtEnd};
ghost use Rattle.cc_shelf.specs.ReadAnswers.{ReadRefused};

use crate::shelf::ShelfFault;
use std::alloc::Global;
use std::io::{Read, Write};

const BUFFER_BYTES: usize = 4096;

/// All that is left of a file, at most `max` bytes. It adds the bytes that it read to the count.
pub fn read_within<F: Read>(
    file: &mut F,
    alloc: Global,
    max: u64,
    bytes_read: &mut u64,
) -> Result<Vec<u8>, ShelfFault>
    ensures bytes { IfOk result (λ bytes. Consumes (F.remaining file.old) (F.remaining file.new) bytes.items) }
    ensures end { OnOk result (IsAtEnd (F.remaining file.new)) }
    ensures length { IfOk result (λ bytes. vec_len bytes ≤ max) }
    ensures refused { IfErr result (ReadRefused max bytes_read.old bytes_read.new) }
    ensures later { bytes_read.old ≤ bytes_read.new }
{
    let mut bytes = Vec::new(alloc);
    let mut buffer = [0u8; BUFFER_BYTES];
    for _ in 0..u64::MAX {
        let Ok(count) = file.read(&mut buffer) else {
            return Err(ShelfFault::Failed);
        };
        if count == 0 {
            return Ok(bytes);
        }
        *bytes_read = bytes_read.saturating_add(count as u64);
        let length = bytes.len() as u64 + count as u64;
        if length > max {
            return Err(ShelfFault::TooLong { at_least: length });
        }
        bytes.extend_from_slice(&buffer[..count])?;
    }
    Err(ShelfFault::Failed)
}

/// Writes the bytes, and says whether all were taken.
pub fn write_whole<W: Write>(out: &mut W, bytes: &[u8]) -> bool
    ensures { IsTrue result → Appends (W.contents out.old) (W.contents out.new) bytes.now }
{
    let mut rest = bytes;
    for _ in 0..u64::MAX {
        if rest.is_empty() {
            return true;
        }
        let Ok(count) = out.write(rest) else {
            return false;
        };
        if count == 0 {
            return false;
        }
        rest = &rest[count..];
    }
    false
}
