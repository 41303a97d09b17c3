//! Reading sequence files.
ghost use Rattle.std.specs.Prelude.{◌≡◌, ◌≢◌, ◌⊎◌, MatchResult, IfOk, IfErr};
ghost use Rattle.lay_model.specs.Sequences.{Sequence};
ghost use Rattle.lay_text.specs.SequenceReading.{Reads, Says};
ghost use Rattle.lay_text.specs.LineReading.{HasCount, IsHead, HasWhole};
ghost use Rattle.lay_text.specs.declared.fault.SeqFault.{SeqFault};
ghost use Rattle.lay_text.specs.declared.fault.SeqFault.TheVariants as faults;

use crate::fault::SeqFault;
use crate::lines::{last_fault, next_or_fault};
use lay_lines::{read_block, read_scalars, read_step};
use lay_model::{Blocks, MOST_SCALARS, Sequence};
use std::alloc::Global;
use text_base::FilledLines;

/// The most that weights times numbers of accesses are together.
const MOST_COUNTED: u64 = 1 << 60;

// What stands before the blocks, and the first line behind it.
#[derive(Drop)]
struct Head<'a> {
    scalars: u8,
    step: u8,
    line: &'a [u8],
}

// Reads how many scalars there are.
fn read_count(lines: &mut FilledLines<'_>) -> Result<u8, SeqFault>
    requires { lines.old.number ≡ 0 }
    ensures bytes { lines.new.bytes ≡ lines.old.bytes }
    ensures read { MatchResult result (HasCount lines.new) (Says lines.new.bytes) }
{
    let line = next_or_fault(lines)?;
    let Some(count) = read_scalars(line) else {
        return Err(last_fault(lines));
    };
    if count > u64::from(MOST_SCALARS) {
        return Err(SeqFault::TooManyScalars { count });
    }
    Ok(count as u8)
}

// Reads what stands before the blocks, and one line more.
fn read_head<'a>(lines: &mut FilledLines<'a>) -> Result<Head<'a>, SeqFault>
    requires { lines.old.number ≡ 0 }
    ensures bytes { lines.new.bytes ≡ lines.old.bytes }
    ensures read { MatchResult result (λ head. IsHead lines.new head.scalars head.step head.line.now) (Says lines.new.bytes) }
{
    let scalars = read_count(lines)?;
    let line = next_or_fault(lines)?;
    match read_step(line) {
        Some(step) => Ok(Head {
            scalars,
            step,
            line: next_or_fault(lines)?,
        }),
        None => Ok(Head {
            scalars,
            step: 1,
            line,
        }),
    }
}

// Reads the blocks and the last line.
fn read_blocks(
    alloc: Global,
    lines: &mut FilledLines<'_>,
    head: &Head<'_>,
) -> Result<Blocks, SeqFault>
    requires { IsHead lines.old head.now.scalars head.now.step head.now.line.now }
    ensures bytes { lines.new.bytes ≡ lines.old.bytes }
    ensures read { MatchResult result (λ blocks. HasWhole lines.new (record { scalars = head.now.scalars; step = head.now.step; blocks = blocks })) (Says lines.new.bytes) }
{
    let mut blocks = Blocks::new(alloc);
    let mut room = MOST_COUNTED;
    let mut line = head.line;
    while line != b"end".as_slice() {
        let Some(block) = read_block(alloc, line, head.scalars, room)? else {
            return Err(last_fault(lines));
        };
        room -= u64::from(block.weight()) * block.accesses().len() as u64;
        blocks.push(block.weight(), block.accesses())?;
        line = next_or_fault(lines)?;
    }
    Ok(blocks)
}

/// The access sequence that a sequence file gives.
///
/// The lines are `scalars N`, `step D` from 1 to 8 or no line for a step of 1, `block W s s s` for each block, and `end`. Blank
/// lines are passed over and counted, one carriage return before its line feed belongs to the end of a line, and the last line may
/// lack its line feed. `TooManyScalars` comes where the first line that isn't blank states more than 64 scalars. For all other bytes
/// that are no sequence file, `BadLine` names the first line N, from 1, for which no sequence file begins with the lines up to N: a
/// file that ends early is faulty at the line behind its last.
pub fn read_sequence(alloc: Global, bytes: &[u8]) -> Result<Sequence, SeqFault>
    // What is read is what the bytes say.
    ensures reads { IfOk result (Reads bytes.now) }
    // What bytes say is read, unless memory is wanting.
    ensures written { (s : Sequence) → Reads bytes.now s → MatchResult result (λ found. found ≡ s) (λ fault. fault ≡ faults.NoMemory) }
    // Which fault it is, and where.
    ensures fault { IfErr result (Says bytes.now) }
    // Bytes that have a fault are answered with that one, unless memory is wanting.
    ensures only { (fault : SeqFault) → fault ≢ faults.NoMemory → Says bytes.now fault → MatchResult result (λ _. ⊥) (λ found. (found ≡ fault) ⊎ (found ≡ faults.NoMemory)) }
{
    let mut lines = FilledLines::new(bytes);
    let head = read_head(&mut lines)?;
    let blocks = read_blocks(alloc, &mut lines, &head)?;
    match lines.next() {
        Some(_) => Err(last_fault(&lines)),
        None => Ok(Sequence::new(head.scalars, head.step, blocks)),
    }
}
