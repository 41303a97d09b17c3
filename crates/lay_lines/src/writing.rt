//! Writing lines.
ghost use Rattle.std.specs.Prelude.{◌≡◌, ◌<◌, ◌^◌, ◌++◌, map, decimal, length, All, OnOk};
ghost use Rattle.text_base.specs.Lines.{with_feed, lines_text};
ghost use Rattle.lay_lines.specs.BlockText.{spaced, step_lines, block_line};
ghost use Rattle.lay_lines.specs.ListText.{list_line, list_lines};
ghost use Rattle.lay_lines.specs.MarkText.{mark_bytes, mark_lines, line_count};

use crate::marks::{MARKS_TO_A_LINE, mark_byte};
use lay_model::{Blocks, ScalarList};
use lay_tree::Mark;
use text_base::{push_decimal, push_hex};
use word_base::NoMemory;

/// The line of a word, which ends with a space, and a number.
pub fn push_number(text: &mut Vec<u8>, word: &[u8], number: u64) -> Result<(), NoMemory>
    ensures { OnOk result (text.new.items ≡ text.old.items ++ with_feed (word.now ++ decimal number)) }
{
    text.extend_from_slice(word)?;
    push_decimal(text, number)?;
    text.push(b'\n')?;
    Ok(())
}

/// The line of a step, unless that is 1.
pub fn push_step(text: &mut Vec<u8>, step: u8) -> Result<(), NoMemory>
    ensures { OnOk result (text.new.items ≡ text.old.items ++ lines_text (step_lines step)) }
{
    if step != 1 {
        push_number(text, b"step ", u64::from(step))?;
    }
    Ok(())
}

/// Scalars, each behind one space.
pub fn push_spaced(text: &mut Vec<u8>, scalars: &[u8]) -> Result<(), NoMemory>
    ensures { OnOk result (text.new.items ≡ text.old.items ++ spaced scalars.now) }
{
    for scalar in scalars {
        text.push(b' ')?;
        push_decimal(text, u64::from(*scalar))?;
    }
    Ok(())
}

// The line of a block.
fn push_block(text: &mut Vec<u8>, weight: u32, accesses: &[u8]) -> Result<(), NoMemory>
    ensures text { OnOk result (text.new.items ≡ text.old.items ++ with_feed (block_line (record { weight = weight; accesses = accesses.now }))) }
    ensures weight { OnOk result (weight < 2 ^ 32) }
{
    text.extend_from_slice(b"block ")?;
    push_decimal(text, u64::from(weight))?;
    push_spaced(text, accesses)?;
    text.push(b'\n')?;
    Ok(())
}

/// The lines of all blocks.
pub fn push_blocks(text: &mut Vec<u8>, blocks: &Blocks) -> Result<(), NoMemory>
    ensures text { OnOk result (text.new.items ≡ text.old.items ++ lines_text (map block_line blocks.now)) }
    ensures weights { OnOk result (All (λ b. b.weight < 2 ^ 32) blocks.now) }
{
    for index in 0..blocks.len() {
        push_block(text, blocks.weight(index), blocks.accesses(index))?;
    }
    Ok(())
}

// The line of a list.
fn push_list(text: &mut Vec<u8>, base: u16, list: &ScalarList) -> Result<(), NoMemory>
    ensures text { OnOk result (text.new.items ≡ text.old.items ++ with_feed (list_line base list.now)) }
    ensures base { OnOk result (base < 2 ^ 16) }
{
    text.extend_from_slice(b"list ")?;
    push_hex(text, base)?;
    push_spaced(text, list.scalars())?;
    text.push(b'\n')?;
    Ok(())
}

/// The lines of all lists, each with its base.
pub fn push_lists(text: &mut Vec<u8>, bases: &[u16], lists: &[ScalarList]) -> Result<(), NoMemory>
    requires { length bases.now ≡ length lists.now }
    ensures text { OnOk result (text.new.items ≡ text.old.items ++ lines_text (list_lines bases.now lists.now)) }
    ensures bases { OnOk result (All (λ base. base < 2 ^ 16) bases.now) }
{
    for (index, list) in lists.iter().enumerate() {
        push_list(text, bases[index], list)?;
    }
    Ok(())
}

// A line of marks.
fn push_mark_line(text: &mut Vec<u8>, marks: &[Mark]) -> Result<(), NoMemory>
    ensures { OnOk result (text.new.items ≡ text.old.items ++ with_feed (mark_bytes marks.now)) }
{
    for mark in marks {
        text.push(mark_byte(*mark))?;
    }
    text.push(b'\n')?;
    Ok(())
}

/// The lines of all marks.
pub fn push_mark_lines(text: &mut Vec<u8>, marks: &[Mark]) -> Result<(), NoMemory>
    ensures { OnOk result (text.new.items ≡ text.old.items ++ lines_text (mark_lines (line_count (length marks.now)) marks.now)) }
{
    let mut rest = marks;
    while !rest.is_empty() {
        let (line, after) = rest.split_at(rest.len().min(MARKS_TO_A_LINE));
        push_mark_line(text, line)?;
        rest = after;
    }
    Ok(())
}
