//! Appending instructions to code.
#![tactic(auto, using(crate::proofs::Appending::appended))]

ghost use Rattle.std.specs.Prelude.{OnOk, option_to_list, ◌∷◌, []};
ghost use Rattle.emit_blocks.specs.Appended.{Appends};

use c25_isa::{Instr, PieceItem};
use word_base::NoMemory;

pub(crate) fn push(code: &mut Vec<PieceItem>, instr: Instr) -> Result<(), NoMemory>
    ensures { OnOk result (Appends code.old.items code.new.items (instr ∷ [])) }
{
    Ok(code.push(PieceItem::Do(instr))?)
}

/// Where there is one.
pub(crate) fn push_some(code: &mut Vec<PieceItem>, instr: Option<Instr>) -> Result<(), NoMemory>
    ensures { OnOk result (Appends code.old.items code.new.items (option_to_list instr)) }
{
    match instr {
        Some(instr) => push(code, instr),
        None => Ok(()),
    }
}
