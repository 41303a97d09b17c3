//! What stands between the commas of an instruction's operands.
ghost use Rattle.std.specs.Prelude.{◌≡◌, ◌<◌, ◌++◌, length, codes, decimal, OnOk};
ghost use Rattle.std.specs.Fmt.{signed_decimal};
ghost use Rattle.c25_image.specs.Hex.{hex4};
ghost use Rattle.c25_dis.specs.Operands as operands;
ghost use Rattle.c25_dis.specs.Operands.{hex2, hex3, next_parts, part_text, parts_text, place_text};

use crate::hex::{push_hex_2, push_hex_3};
use c25_image::{push_decimal, push_hex};
use c25_isa::{Change, Operand};
use itoa::{Buffer, Integer};
use word_base::NoMemory;

/// An operand of an instruction, as it is written.
#[derive(Clone, Copy)]
pub enum Part {
    /// An address register, 0 to 7.
    Register(u8),
    /// A place in data memory, or an indirect operand through which nothing is accessed; without the register that is current
    /// afterwards.
    Place(Operand),
    /// From 0 to 15.
    Shift(u8),
    /// From 0 to 15.
    Port(u8),
    /// A constant of two hexadecimal digits.
    Byte(u8),
    /// A constant of three hexadecimal digits.
    Page(u16),
    /// A constant in decimal.
    Signed(i16),
    /// A constant of four hexadecimal digits.
    Word(u16),
}

// A number behind a word.
fn push_numbered(text: &mut Vec<u8>, word: &[u8], number: u8) -> Result<(), NoMemory>
    ensures { OnOk result (text.new.items ≡ text.old.items ++ (word.now ++ decimal number)) }
{
    text.extend_from_slice(word)?;
    push_decimal(text, u64::from(number))?;
    Ok(())
}

// A number in decimal, behind `-` where it is below 0.
fn push_signed(text: &mut Vec<u8>, number: i16) -> Result<(), NoMemory>
    ensures { OnOk result (text.new.items ≡ text.old.items ++ signed_decimal number) }
{
    let mut buffer = Buffer::new();
    text.extend_from_slice(buffer.format(number).as_bytes())?;
    Ok(())
}

// A constant of two hexadecimal digits.
fn push_byte(text: &mut Vec<u8>, constant: u8) -> Result<(), NoMemory>
    ensures { OnOk result (text.new.items ≡ text.old.items ++ (codes "0x" ++ hex2 constant)) }
{
    text.extend_from_slice(b"0x")?;
    push_hex_2(text, u16::from(constant))
}

// A constant of three hexadecimal digits.
fn push_page(text: &mut Vec<u8>, constant: u16) -> Result<(), NoMemory>
    ensures { OnOk result (text.new.items ≡ text.old.items ++ (codes "0x" ++ hex3 constant)) }
{
    text.extend_from_slice(b"0x")?;
    push_hex_3(text, constant)
}

// A constant of four hexadecimal digits.
fn push_word(text: &mut Vec<u8>, word: u16) -> Result<(), NoMemory>
    ensures { OnOk result (text.new.items ≡ text.old.items ++ (codes "0x" ++ hex4 word)) }
{
    text.extend_from_slice(b"0x")?;
    push_hex(text, word)?;
    Ok(())
}

// An indirect operand.
fn change_text(change: Change) -> &'static [u8]
    ensures { result.now ≡ operands.change_text change }
{
    match change {
        Change::Stay => b"*",
        Change::Down => b"*-",
        Change::Up => b"*+",
        Change::DownIndex => b"*0-",
        Change::UpIndex => b"*0+",
    }
}

// An operand without the register that is current afterwards.
fn push_place(text: &mut Vec<u8>, operand: Operand) -> Result<(), NoMemory>
    ensures { OnOk result (text.new.items ≡ text.old.items ++ place_text operand) }
{
    match operand {
        Operand::Direct(offset) => push_byte(text, offset),
        Operand::Indirect(indirect) => {
            text.extend_from_slice(change_text(indirect.change))?;
            Ok(())
        }
    }
}

// One operand.
fn push_part(text: &mut Vec<u8>, part: Part) -> Result<(), NoMemory>
    ensures { OnOk result (text.new.items ≡ text.old.items ++ part_text part) }
{
    match part {
        Part::Register(number) => push_numbered(text, b"AR", number),
        Part::Place(operand) => push_place(text, operand),
        Part::Shift(number) => push_numbered(text, b"", number),
        Part::Port(number) => push_numbered(text, b"PA", number),
        Part::Byte(constant) => push_byte(text, constant),
        Part::Page(constant) => push_page(text, constant),
        Part::Signed(constant) => push_signed(text, constant),
        Part::Word(word) => push_word(text, word),
    }
}

/// Puts operands behind a text, with a space before the first and commas between them.
pub(crate) fn push_parts(text: &mut Vec<u8>, parts: &[Part]) -> Result<(), NoMemory>
    requires { 0 < length parts.now }
    ensures { OnOk result (text.new.items ≡ text.old.items ++ parts_text parts.now) }
{
    text.push(b' ')?;
    push_part(text, parts[0])?;
    for part in &parts[1..] {
        text.push(b',')?;
        push_part(text, *part)?;
    }
    Ok(())
}

/// The same, and behind them the register that is current afterwards, where there is one.
#[tactic(auto, using(crate::proofs::Parts::register_more, crate::proofs::Parts::none_more))]
pub(crate) fn push_with_next(
    text: &mut Vec<u8>,
    parts: &[Part],
    next: Option<u8>,
) -> Result<(), NoMemory>
    requires { 0 < length parts.now }
    ensures { OnOk result (text.new.items ≡ text.old.items ++ parts_text (parts.now ++ next_parts next)) }
{
    push_parts(text, parts)?;
    if let Some(register) = next {
        push_numbered(text, b",AR", register)?;
    }
    Ok(())
}
