//! The faults of the lines of a sequence file.
ghost use Rattle.std.specs.Prelude.{◌≡◌, ◌+◌, MatchResult};
ghost use Rattle.text_base.specs.FilledLines.{HasRead, HasReadAll, read_to};
ghost use Rattle.lay_text.specs.declared.fault.SeqFault.TheVariants as faults;

use crate::fault::SeqFault;
use text_base::FilledLines;

/// The next line that isn't blank. Where there is none, the line behind the last is faulty.
pub(crate) fn next_or_fault<'a>(lines: &mut FilledLines<'a>) -> Result<&'a [u8], SeqFault>
    ensures bytes { lines.new.bytes ≡ lines.old.bytes }
    ensures read { MatchResult result
        (λ line. HasRead (read_to lines.old) line.now lines.new)
        (λ fault. HasReadAll (read_to lines.old) lines.new × (fault ≡ faults.BadLine (lines.new.number + 1))) }
{
    match lines.next() {
        Some(line) => Ok(line),
        None => Err(SeqFault::BadLine {
            line: lines.next_number(),
        }),
    }
}

/// The last line that was read is faulty.
pub(crate) fn last_fault(lines: &FilledLines<'_>) -> SeqFault
    ensures { result ≡ faults.BadLine lines.now.number }
{
    SeqFault::BadLine {
        line: lines.number(),
    }
}
