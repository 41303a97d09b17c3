//! Writing listings.
ghost use Rattle.std.specs.Prelude.{◌≡◌, ◌++◌, codes, IfOk, OnOk};
ghost use Rattle.c25_image.specs.Hex.{hex4};
ghost use Rattle.c25_image.specs.Lines.{with_feed};
ghost use Rattle.c25_dis.specs.Listing.{fixed_text, instr_text, line_text, listing_text};

use crate::line::{Line, split_line};
use crate::operands::push_operands;
use c25_image::push_hex;
use c25_isa::{Instr, Mnemonic};
use std::alloc::Global;
use word_base::NoMemory;

// The one operand that SPM has.
fn fixed_operand(mnemonic: Mnemonic) -> &'static [u8]
    ensures { result.now ≡ fixed_text mnemonic }
{
    match mnemonic {
        Mnemonic::Spm => b" 0",
        _ => b"",
    }
}

// An instruction: its mnemonic and its operands.
fn push_instruction(text: &mut Vec<u8>, instr: &Instr) -> Result<(), NoMemory>
    ensures { OnOk result (text.new.items ≡ text.old.items ++ instr_text instr.now) }
{
    let mnemonic = instr.mnemonic();
    text.extend_from_slice(mnemonic.row().name.as_bytes())?;
    text.extend_from_slice(fixed_operand(mnemonic))?;
    push_operands(text, &instr.fields())
}

// A word that is written as a number.
fn push_data(text: &mut Vec<u8>, word: u16) -> Result<(), NoMemory>
    ensures { OnOk result (text.new.items ≡ text.old.items ++ (codes ".word 0x" ++ hex4 word)) }
{
    text.extend_from_slice(b".word 0x")?;
    push_hex(text, word)?;
    Ok(())
}

// A line, with its line feed.
fn push_line(text: &mut Vec<u8>, line: &Line) -> Result<(), NoMemory>
    ensures { OnOk result (text.new.items ≡ text.old.items ++ with_feed (line_text line.now)) }
{
    match line {
        Line::Instruction(instr) => push_instruction(text, instr)?,
        Line::Data(word) => push_data(text, *word)?,
    }
    text.push(b'\n')?;
    Ok(())
}

/// The listing of words as assembler text, with a line for each instruction in order. Only the want of memory is refused.
pub fn listing(alloc: Global, words: &[u16]) -> Result<Vec<u8>, NoMemory>
    ensures { IfOk result (λ text. text.items ≡ listing_text words.now) }
{
    let mut text = Vec::new(alloc);
    let mut rest = words;
    while !rest.is_empty() {
        let (line, behind) = split_line(rest);
        push_line(&mut text, &line)?;
        rest = behind;
    }
    Ok(text)
}
