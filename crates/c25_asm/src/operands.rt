//! Single operands of instructions.
ghost use Rattle.std.specs.Prelude.{◌≡◌, true, false, Some, None, MatchOption, option_copied};
ghost use Rattle.c25_asm.specs.Cuts as cuts;
ghost use Rattle.c25_asm.specs.Operands as operands;
ghost use Rattle.c25_asm.specs.LabelView.{known};
ghost use Rattle.c25_asm.specs.Names.{is_name};

use crate::cuts::cut_operand;
use crate::labels::LabelTable;
use crate::numbers::{below, byte_below, number, numbered};
use crate::statement::LineFault;
use c25_isa::{Change, Indirect, Operand};
use word_base::name_text;

impl LineFault {
    // The fault of two that is told.
    fn or_first(self, other: Self) -> Self
        ensures { result ≡ operands.first_told self other }
    {
        match (self, other) {
            (LineFault::BadLine, _) | (_, LineFault::BadLine) => LineFault::BadLine,
            (LineFault::LabelTwice, _) | (_, LineFault::LabelTwice) => LineFault::LabelTwice,
            (LineFault::OutOfRange, _) | (_, LineFault::OutOfRange) => LineFault::OutOfRange,
            (LineFault::UnknownLabel, LineFault::UnknownLabel) => LineFault::UnknownLabel,
        }
    }
}

/// Two parts of a line. Of two faults the first that is told is that of the line.
pub(crate) fn both<A: Drop, B: Drop>(
    first: Result<A, LineFault>,
    second: Result<B, LineFault>,
) -> Result<(A, B), LineFault>
    ensures { result ≡ operands.both first second }
{
    match (first, second) {
        (Ok(a), Ok(b)) => Ok((a, b)),
        (Ok(_), Err(fault)) | (Err(fault), Ok(_)) => Err(fault),
        (Err(fault), Err(other)) => Err(fault.or_first(other)),
    }
}

/// An address register, AR0 to AR7.
pub(crate) fn register(text: &[u8]) -> Result<u8, LineFault>
    ensures { result ≡ operands.register text.now }
{
    numbered(b"AR", 8, text).ok_or(LineFault::BadLine)
}

/// A port, PA0 to PA15.
pub(crate) fn port(text: &[u8]) -> Result<u8, LineFault>
    ensures { result ≡ operands.port text.now }
{
    numbered(b"PA", 16, text).ok_or(LineFault::BadLine)
}

/// The name that a text is.
pub(crate) fn name_of(text: &[u8]) -> Option<&str>
    ensures { MatchOption result (is_name text.now ≡ false) (λ name. (is_name text.now ≡ true) × (name.now ≡ text.now)) }
{
    name_text(text)
}

// The number of the label whose name a text is.
fn label_number(labels: &LabelTable<'_>, text: &[u8]) -> Result<u16, LineFault>
    ensures { result ≡ operands.word_by None (is_name text.now) (known labels.now text.now) }
{
    let Some(name) = name_of(text) else {
        return Err(LineFault::BadLine);
    };
    match labels.find(name) {
        Some(place) => Ok(place.number),
        None => Err(LineFault::UnknownLabel),
    }
}

/// A word: a number, or the name of a label, which stands for the label's number.
pub(crate) fn word(labels: &LabelTable<'_>, text: &[u8]) -> Result<u16, LineFault>
    ensures { result ≡ operands.word (known labels.now) text.now }
{
    match number(text) {
        Some(number) => below(65536, Some(number)),
        None => label_number(labels, text),
    }
}

// How an indirect operand changes its register.
fn change_of(text: &[u8]) -> Option<Change>
    ensures { result ≡ operands.change_of text.now }
{
    match text {
        b"*" => Some(Change::Stay),
        b"*-" => Some(Change::Down),
        b"*+" => Some(Change::Up),
        b"*0-" => Some(Change::DownIndex),
        b"*0+" => Some(Change::UpIndex),
        _ => None,
    }
}

// An indirect operand, and the register that is current afterwards, where one is set.
fn indirect_with(change: Change, next: Option<&[u8]>) -> Result<Indirect, LineFault>
    ensures { result ≡ operands.indirect_by (Some change) (option_copied next.entry) }
{
    let next = match next {
        None => None,
        Some(text) => Some(register(text)?),
    };
    Ok(Indirect { change, next })
}

/// An indirect operand through which nothing is accessed.
pub(crate) fn indirect(text: &[u8]) -> Result<Indirect, LineFault>
    ensures { result ≡ operands.indirect (cuts.first_operand text.now) (cuts.more_operands text.now) }
{
    let (first, next) = cut_operand(text);
    match change_of(first) {
        None => Err(LineFault::BadLine),
        Some(change) => indirect_with(change, next),
    }
}

// A direct address, which sets no register.
fn direct(text: &[u8], next: Option<&[u8]>) -> Result<u8, LineFault>
    ensures { result ≡ operands.direct text.now (option_copied next.entry) }
{
    match next {
        None => byte_below(128, text),
        Some(_) => Err(LineFault::BadLine),
    }
}

/// A word of data memory, and the register that is current afterwards, where one is set.
pub(crate) fn place(text: &[u8], next: Option<&[u8]>) -> Result<Operand, LineFault>
    ensures { result ≡ operands.place text.now (option_copied next.entry) }
{
    match change_of(text) {
        None => Ok(Operand::Direct(direct(text, next)?)),
        Some(change) => Ok(Operand::Indirect(indirect_with(change, next)?)),
    }
}
