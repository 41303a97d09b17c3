//! Writing sequence files.
ghost use Rattle.std.specs.Prelude.{◌≡◌, IfOk};
ghost use Rattle.lay_text.specs.SequenceText.{sequence_text};
ghost use Rattle.lay_text.specs.SequenceReading.{Reads};

use lay_lines::{push_blocks, push_number, push_step};
use lay_model::Sequence;
use std::alloc::Global;
use word_base::NoMemory;

/// The text of an access sequence: its one spelling, without blank lines, without the line of a step of 1, and with a line feed
/// behind each line. Only the want of memory is refused.
pub fn write_sequence(alloc: Global, sequence: &Sequence) -> Result<Vec<u8>, NoMemory>
    ensures text { IfOk result (λ text. text.items ≡ sequence_text sequence.now) }
    // Reading the text gives the sequence again.
    ensures read_back { IfOk result (λ text. Reads text.items sequence.now) }
{
    let mut text = Vec::new(alloc);
    push_number(&mut text, b"scalars ", u64::from(sequence.scalars()))?;
    push_step(&mut text, sequence.step())?;
    push_blocks(&mut text, sequence.blocks())?;
    text.extend_from_slice(b"end\n")?;
    Ok(text)
}
