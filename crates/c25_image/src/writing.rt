//! Writing the texts of images and of outputs.
ghost use Rattle.std.specs.Prelude.{◌≡◌, ◌<◌, ◌++◌, ◌∷◌, [], length, map, IfOk, OnOk};
ghost use Rattle.text_base.specs.Lines.{with_feed, lines_text};
ghost use Rattle.c25_image.specs.ImageText.{word_line, word_lines, line_count, range_line, size_line, image_text};
ghost use Rattle.c25_image.specs.ImageFaults.{IsWhole};
ghost use Rattle.c25_image.specs.PortText.{PortText};
ghost use Rattle.c25_image.specs.OutsText.{IsOut, out_line, outs_text};

use crate::image_lines::WORDS_TO_A_LINE;
use c25_isa::{FunctionRange, Image};
use std::alloc::Global;
use text_base::{push_decimal, push_hex};
use word_base::{NoMemory, PortWord};

// The line that says how many words there are.
fn push_size(text: &mut Vec<u8>, count: usize) -> Result<(), NoMemory>
    ensures { OnOk result (text.new.items ≡ text.old.items ++ with_feed (size_line count)) }
{
    text.extend_from_slice(b"words ")?;
    push_decimal(text, count as u64)?;
    text.push(b'\n')?;
    Ok(())
}

// The line of some words.
fn push_word_line(text: &mut Vec<u8>, words: &[u16]) -> Result<(), NoMemory>
    requires { 0 < length words.now }
    ensures { OnOk result (text.new.items ≡ text.old.items ++ with_feed (word_line words.now)) }
{
    push_hex(text, words[0])?;
    for word in &words[1..] {
        text.push(b' ')?;
        push_hex(text, *word)?;
    }
    text.push(b'\n')?;
    Ok(())
}

// All words, eight to a line and the rest on the last.
fn push_words(text: &mut Vec<u8>, words: &[u16]) -> Result<(), NoMemory>
    ensures { OnOk result (text.new.items ≡ text.old.items ++ lines_text (word_lines (line_count (length words.now)) words.now)) }
{
    let mut rest = words;
    while !rest.is_empty() {
        let (line, after) = rest.split_at(rest.len().min(WORDS_TO_A_LINE));
        push_word_line(text, line)?;
        rest = after;
    }
    Ok(())
}

// The line of a function.
fn push_range(text: &mut Vec<u8>, function: &FunctionRange) -> Result<(), NoMemory>
    ensures { OnOk result (text.new.items ≡ text.old.items ++ with_feed (range_line function.now)) }
{
    text.extend_from_slice(b"func ")?;
    text.extend_from_slice(function.name.as_str().as_bytes())?;
    text.push(b' ')?;
    push_hex(text, function.first)?;
    text.push(b' ')?;
    push_hex(text, function.last)?;
    text.push(b'\n')?;
    Ok(())
}

// The lines of all functions.
fn push_ranges(text: &mut Vec<u8>, functions: &[FunctionRange]) -> Result<(), NoMemory>
    ensures { OnOk result (text.new.items ≡ text.old.items ++ lines_text (map range_line functions.now)) }
{
    for function in functions {
        push_range(text, function)?;
    }
    Ok(())
}

/// The text of an image: its one spelling, with at most 65,536 words, eight to a line. Only the
/// want of memory is refused.
pub fn write_image(alloc: Global, image: &Image) -> Result<Vec<u8>, NoMemory>
    ensures text { IfOk result (λ text. text.items ≡ image_text image.now) }
    // So reading the text gives the image again.
    ensures whole { IsWhole image.now }
{
    let words = image.words();
    let mut text = Vec::from_slice(alloc, b"C25 IMAGE 1\n")?;
    push_size(&mut text, words.len())?;
    push_words(&mut text, words)?;
    push_ranges(&mut text, image.functions())?;
    text.extend_from_slice(b"end\n")?;
    Ok(text)
}

/// Puts the line of an output behind a text: the port in decimal and the word as four lower-case hexadecimal digits.
pub fn push_out(text: &mut Vec<u8>, out: PortWord) -> Result<(), NoMemory>
    ensures text { OnOk result (text.new.items ≡ text.old.items ++ with_feed (out_line out)) }
    ensures out { IsOut out }
{
    push_decimal(text, u64::from(out.port()))?;
    text.push(b' ')?;
    push_hex(text, out.word())?;
    text.push(b'\n')?;
    Ok(())
}

/// The text of outputs: a line for each, in their order, with the port in decimal and the word as
/// four lower-case hexadecimal digits.
pub fn write_outs(alloc: Global, outs: &[PortWord]) -> Result<Vec<u8>, NoMemory>
    ensures text { IfOk result (λ text. text.items ≡ outs_text outs.now) }
    // A port file of this text gives the outputs again.
    ensures read_back { IfOk result (λ text. PortText text.items outs.now) }
{
    let mut text = Vec::new(alloc);
    for out in outs {
        push_out(&mut text, *out)?;
    }
    Ok(text)
}
