//! The marks of a log.
ghost use Rattle.std.specs.Prelude.{◌≡◌, ◌≢◌, ◌<◌, ◌≤◌, length, MatchOption, IfOk};
ghost use Rattle.lay_tree.specs.declared.answer.Mark.{Mark};
ghost use Rattle.lay_lines.specs.MarkText.{mark_byte, held, is_short, ReadsMarks};

use lay_tree::Mark;
use word_base::NoMemory;

/// The most marks of a line.
pub const MARKS_TO_A_LINE: usize = 64;

// The byte of a mark.
pub(crate) fn mark_byte(mark: Mark) -> u8
    ensures { result ≡ mark_byte mark }
{
    match mark {
        Mark::Branched => b'b',
        Mark::Closed => b'c',
    }
}

// The mark of a byte.
fn mark_of(byte: u8) -> Option<Mark>
    ensures { MatchOption result ((mark : Mark) → byte ≢ mark_byte mark) (λ mark. byte ≡ mark_byte mark) }
{
    match byte {
        b'b' => Some(Mark::Branched),
        b'c' => Some(Mark::Closed),
        _ => None,
    }
}

/// Puts the marks of a line behind others, and says whether all its bytes are marks.
pub fn push_marks(marks: &mut Vec<Mark>, line: &[u8]) -> Result<bool, NoMemory>
    ensures { IfOk result (ReadsMarks line.now marks.old.items marks.new.items) }
{
    for byte in line {
        let Some(mark) = mark_of(*byte) else {
            return Ok(false);
        };
        marks.push(mark)?;
    }
    Ok(true)
}

// How many marks the unbroken run of lines of marks at the front holds. None where the text ends in a line of marks without its line feed.
fn held_marks(text: &[u8]) -> Option<u64>
    requires { length text.now ≤ 536870912 }
    ensures { result ≡ held 0 0 text.now }
{
    let mut all = 0;
    let mut here = 0;
    for byte in text {
        if *byte == b'b' || *byte == b'c' {
            here += 1;
        } else if *byte == b'\n' && here != 0 {
            all += here;
            here = 0;
        } else {
            return Some(all);
        }
    }
    if here == 0 { Some(all) } else { None }
}

/// Whether the run of marks holds fewer than these.
pub fn is_short(text: &[u8], marks: u64) -> bool
    requires { length text.now ≤ 536870912 }
    ensures { result ≡ is_short marks text.now }
{
    match held_marks(text) {
        Some(count) => count < marks,
        None => false,
    }
}
