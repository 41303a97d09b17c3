//! Reading the text of an image, line by line.
ghost use Rattle.std.specs.Prelude.{◌≡◌, ◌≢◌, ◌⊎◌, ◌≤◌, ◌<◌, ◌+◌, [], length, min, MatchOption, MatchResult, IfOk, IfErr};
ghost use Rattle.c25_isa.specs.Image.{Contents};
ghost use Rattle.c25_image.specs.ImageText.{image_text};
ghost use Rattle.c25_image.specs.ImageFaults.{IsWhole, Says};
ghost use Rattle.c25_image.specs.declared.fault.ImageFault.{ImageFault};
ghost use Rattle.c25_image.specs.declared.fault.ImageFault.TheVariants as image_faults;
ghost use Rattle.c25_image.specs.ImageReading.{IsRowOf, IsStuck, NextRow, ReadsHead, ReadsRows, ReadsRanges};
ghost use Rattle.c25_image.specs.ImageStops.{StopsInHead, StopsInRows, StopsInRanges};

use crate::fault::ImageFault;
use crate::image_lines::{WORDS_TO_A_LINE, read_range, read_row, read_size};
use c25_isa::{FunctionRange, Image};
use std::alloc::Global;
use text_base::front_line;
use word_base::NoMemory;

/// The most words that an image holds.
const MOST_WORDS: u64 = 65_536;

/// The number of the first line of words.
const FIRST_ROW: u64 = 3;

// How many words the two head lines state, and what stands behind them.
fn read_head(bytes: &[u8]) -> Result<(usize, &[u8]), ImageFault>
    ensures { MatchResult result (λ head. ReadsHead bytes.now head.0 head.1.now) (StopsInHead bytes.now) }
{
    let Some((first, rest)) = front_line(bytes) else {
        return Err(ImageFault::BadLine { line: 1 });
    };
    if first != b"C25 IMAGE 1".as_slice() {
        return Err(ImageFault::BadLine { line: 1 });
    }
    let Some((second, rest)) = front_line(rest) else {
        return Err(ImageFault::BadLine { line: 2 });
    };
    let Some(count) = read_size(second) else {
        return Err(ImageFault::BadLine { line: 2 });
    };
    if count > MOST_WORDS {
        return Err(ImageFault::TooLong { count });
    }
    Ok((count as usize, rest))
}

// Reads a line of so many words behind the others, and gives what stands behind it.
fn next_row<'a>(
    words: &mut Vec<u16>,
    bytes: &'a [u8],
    count: usize,
) -> Result<Option<&'a [u8]>, NoMemory>
    requires { length words.old.items + count ≤ 65536 }
    ensures { IfOk result (λ found. MatchOption found
        (IsStuck (IsRowOf count) bytes.now)
        (λ rest. NextRow count bytes.now rest.now words.old.items words.new.items)) }
{
    let Some((line, rest)) = front_line(bytes) else {
        return Ok(None);
    };
    let end = words.len() + count;
    if read_row(words, line)? && words.len() == end {
        Ok(Some(rest))
    } else {
        Ok(None)
    }
}

// Reads the lines of all words, and gives what stands behind them.
fn read_rows<'a>(
    words: &mut Vec<u16>,
    bytes: &'a [u8],
    count: usize,
) -> Result<&'a [u8], ImageFault>
    requires empty { words.old.items ≡ [] }
    requires short { count ≤ 65536 }
    ensures { MatchResult result (λ rest. ReadsRows bytes.now count words.new.items rest.now) (StopsInRows bytes.now count) }
{
    let mut rest = bytes;
    let mut line = FIRST_ROW;
    while words.len() < count {
        let in_line = WORDS_TO_A_LINE.min(count - words.len());
        let Some(after) = next_row(words, rest, in_line)? else {
            return Err(ImageFault::BadLine { line });
        };
        rest = after;
        line += 1;
    }
    Ok(rest)
}

// Reads the lines of all functions and the last line, and gives what stands behind that.
fn read_ranges(
    alloc: Global,
    bytes: &[u8],
    count: usize,
    first_line: u64,
) -> Result<(Vec<FunctionRange>, &[u8]), ImageFault>
    requires short { count ≤ 65536 }
    requires early { first_line ≤ 65536 }
    ensures { MatchResult result (λ found. ReadsRanges bytes.now count found.0.items found.1.now) (StopsInRanges bytes.now count first_line) }
{
    let mut functions = Vec::new(alloc);
    let mut rest = bytes;
    let mut line = first_line;
    let mut from = 0;
    while let Some((text, after)) = front_line(rest) {
        if text == b"end".as_slice() {
            return Ok((functions, after));
        }
        let Some(function) = read_range(alloc, text)? else {
            return Err(ImageFault::BadLine { line });
        };
        let first = usize::from(function.first);
        let last = usize::from(function.last);
        if first < from || last < first || count <= last {
            return Err(ImageFault::BadRange { line });
        }
        functions.push(function)?;
        from = last + 1;
        rest = after;
        line += 1;
    }
    Err(ImageFault::BadLine { line })
}

/// The image whose text the bytes are. An image has one text, so no other spelling is read.
///
/// `TooLong` comes where the first line is right and the second is well formed and states more
/// than 65,536 words, and `BadRange` where the first faulty line is well formed and is that of a
/// function whose range breaks the rule of an image. For every other text that is no image's,
/// `BadLine` names the first line N, from 1, for which no image's text begins with the lines up to
/// N: a text that ends early is faulty at the line behind its last, a last line without its line
/// feed is faulty itself, and so is the line behind `end`.
pub fn read_image(alloc: Global, bytes: &[u8]) -> Result<Image, ImageFault>
    // What is read has this text.
    ensures text { IfOk result (λ image. bytes.now ≡ image_text image) }
    // It is one that can be written.
    ensures whole { IfOk result IsWhole }
    // The text of an image is read as that image, unless memory is wanting.
    ensures written { (c : Contents) → IsWhole c → bytes.now ≡ image_text c → MatchResult result (λ image. image ≡ c) (λ fault. fault ≡ image_faults.NoMemory) }
    // Which fault it is, and where.
    ensures fault { IfErr result (Says bytes.now) }
    // A text that has a fault is answered with that one, unless memory is wanting.
    ensures only { (fault : ImageFault) → fault ≢ image_faults.NoMemory → Says bytes.now fault → MatchResult result (λ _. ⊥) (λ found. (found ≡ fault) ⊎ (found ≡ image_faults.NoMemory)) }
{
    let (count, rest) = read_head(bytes)?;
    let mut words = Vec::new(alloc);
    let rest = read_rows(&mut words, rest, count)?;
    let first_range = FIRST_ROW + count.div_ceil(WORDS_TO_A_LINE) as u64;
    let (functions, rest) = read_ranges(alloc, rest, count, first_range)?;
    if !rest.is_empty() {
        let line = first_range + functions.len() as u64 + 1;
        return Err(ImageFault::BadLine { line });
    }
    Ok(Image::new(words, functions))
}
