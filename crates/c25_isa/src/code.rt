//! Instructions one behind another.
ghost use Rattle.std.specs.Prelude.{◌≡◌, ℕ, ◌<◌, ◌++◌, List, All, IfOk, OnOk};
ghost use Rattle.std.specs.List.{AllByRecursion};
ghost use Rattle.c25_isa.specs.Pieces.{Piece, PiecesFit, pieces_code};
ghost use Rattle.c25_isa.specs.Table.{IsInstr, instr_words, code_words};

use crate::encoder::encode;
use crate::instruction::Instr;
use std::alloc::Global;
use word_base::NoMemory;

/// The words of instructions, one behind another.
pub fn words_of(alloc: Global, code: &[Instr]) -> Result<Vec<u16>, NoMemory>
    requires { All IsInstr code.now }
    ensures { IfOk result (λ words. words.items ≡ code_words code.now) }
{
    let mut words = Vec::new(alloc);
    for instr in code {
        push_words(&mut words, instr)?;
    }
    Ok(words)
}

// The words of one instruction, behind those before it.
fn push_words(words: &mut Vec<u16>, instr: &Instr) -> Result<(), NoMemory>
    requires { IsInstr instr.now }
    ensures { OnOk result (words.new.items ≡ words.old.items ++ instr_words instr.now) }
{
    let (first, second) = encode(instr);
    words.push(first)?;
    if let Some(word) = second {
        words.push(word)?;
    }
    Ok(())
}

/// The instructions of pieces are instructions, at whatever addresses they stand. The call does nothing.
pub fn pieces_have_instructions()
    ensures { (names : List ℕ → ℕ) (pieces : List Piece) (at : ℕ) → ((name : List ℕ) → names name < 65536) → PiecesFit pieces → AllByRecursion IsInstr (pieces_code names at pieces) }
{}
