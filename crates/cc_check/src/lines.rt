//! The lines of a check.
ghost use Rattle.std.specs.Prelude.{◌≡◌, ◌++◌, false, length, codes, decimal, OnOk, slice_index_or};
ghost use Rattle.std.specs.Fmt.{signed_decimal};
ghost use Rattle.c25_image.specs.Hex.{hex4};
ghost use Rattle.cc_check.specs.CheckText.{finding_text, line_of, no_frame_lines};

use crate::finding::Finding;
use c25_image::push_hex;
use c25_isa::FunctionRange;
use itoa::{Buffer, Integer};
use lay_text::push_decimal;
use word_base::NoMemory;

// Words and the number behind them.
fn push_number(text: &mut Vec<u8>, words: &[u8], number: u64) -> Result<(), NoMemory>
    ensures { OnOk result (text.new.items ≡ text.old.items ++ (words.now ++ decimal number)) }
{
    text.extend_from_slice(words)?;
    push_decimal(text, number)?;
    Ok(())
}

// Words and the place behind them.
fn push_place(text: &mut Vec<u8>, words: &[u8], at: u16) -> Result<(), NoMemory>
    ensures { OnOk result (text.new.items ≡ text.old.items ++ (words.now ++ hex4 at)) }
{
    text.extend_from_slice(words)?;
    push_hex(text, at)?;
    Ok(())
}

// Two numbers, each behind its words.
fn push_pair(
    text: &mut Vec<u8>,
    words: &[u8],
    number: u64,
    more: &[u8],
    other: u64,
) -> Result<(), NoMemory>
    ensures { OnOk result (text.new.items ≡ text.old.items ++ (words.now ++ (decimal number ++ (more.now ++ decimal other)))) }
{
    push_number(text, words, number)?;
    push_number(text, more, other)?;
    Ok(())
}

// A bound, which may be negative.
fn push_bound(text: &mut Vec<u8>, bound: i64) -> Result<(), NoMemory>
    ensures { OnOk result (text.new.items ≡ text.old.items ++ (codes " bound " ++ signed_decimal bound)) }
{
    let mut buffer = Buffer::new();
    text.extend_from_slice(b" bound ")?;
    text.extend_from_slice(buffer.format(bound).as_bytes())?;
    Ok(())
}

// A node whose bound is below the cost.
fn push_node(text: &mut Vec<u8>, node: u64, bound: i64, cost: u64) -> Result<(), NoMemory>
    ensures { OnOk result (text.new.items ≡ text.old.items ++ (codes "no node " ++ (decimal node ++ (codes " bound " ++ (signed_decimal bound ++ (codes " cost " ++ decimal cost)))))) }
{
    push_number(text, b"no node ", node)?;
    push_bound(text, bound)?;
    push_number(text, b" cost ", cost)?;
    Ok(())
}

// What is said of a frame.
fn push_finding(text: &mut Vec<u8>, finding: Finding) -> Result<(), NoMemory>
    ensures { OnOk result (text.new.items ≡ text.old.items ++ finding_text finding) }
{
    match finding {
        Finding::NotInImage => Ok(text.extend_from_slice(b"not in the image")?),
        Finding::BadWord { at } => push_place(text, b"bad word ", at),
        Finding::UnknownAddress { at } => push_place(text, b"unknown address ", at),
        Finding::WalkDiffers { block } => push_number(text, b"walk differs in block ", block),
        Finding::Count { count, cost } => push_pair(
            text,
            b"count ",
            u64::from(count),
            b" cost ",
            cost,
        ),
        Finding::Cost { claimed, found } => push_pair(
            text,
            b"cost claimed ",
            claimed,
            b" found ",
            found,
        ),
        Finding::No { node, bound, cost } => push_node(text, node, bound, cost),
        Finding::NoShape { node } => push_number(text, b"shape node ", node),
        Finding::Optimal { cost } => push_number(text, b"optimal ", cost),
        Finding::Best { cost } => push_number(text, b"best ", cost),
    }
}

/// The line of a frame by its name, with the line feed.
pub(crate) fn push_frame(text: &mut Vec<u8>, name: &str, finding: Finding) -> Result<(), NoMemory>
    ensures { OnOk result (text.new.items ≡ text.old.items ++ line_of name.now (finding_text finding)) }
{
    text.extend_from_slice(name.as_bytes())?;
    text.extend_from_slice(b": ")?;
    push_finding(text, finding)?;
    text.push(b'\n')?;
    Ok(())
}

// The line of a function that has no frame.
fn push_no_frame(text: &mut Vec<u8>, name: &str) -> Result<(), NoMemory>
    ensures { OnOk result (text.new.items ≡ text.old.items ++ line_of name.now (codes "no frame")) }
{
    text.extend_from_slice(name.as_bytes())?;
    text.extend_from_slice(b": no frame\n")?;
    Ok(())
}

/// The lines of the functions that have no frame, by whether each has one.
pub(crate) fn push_no_frames(
    text: &mut Vec<u8>,
    functions: &[FunctionRange],
    framed: &[bool],
) -> Result<(), NoMemory>
    requires { length framed.now ≡ length functions.now }
    ensures { OnOk result (text.new.items ≡ text.old.items ++ no_frame_lines (λ k. slice_index_or framed.now k false) 0 functions.now) }
{
    for (index, function) in functions.iter().enumerate() {
        if !framed[index] {
            push_no_frame(text, function.name.as_str())?;
        }
    }
    Ok(())
}
