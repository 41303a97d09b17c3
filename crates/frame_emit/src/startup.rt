//! The startup.
#![tactic(auto, using(crate::proofs::Appending::appended))]

ghost use Rattle.std.specs.Prelude.{◌≡◌, ◌<◌, ◌++◌, ◌∷◌, [], map, IfOk, OnOk};
ghost use Rattle.c_tree.specs.SourceRun.{main_name};
ghost use Rattle.c_tree.specs.View.{object_of};
ghost use Rattle.c25_code.specs.ClearingLoops.{clears_at_one};
ghost use Rattle.c25_code.specs.Items.{no_change};
ghost use Rattle.c25_isa.specs.Pieces.{piece_of};
ghost use Rattle.c25_isa.specs.declared.instruction.Instr.TheVariants as instr;
ghost use Rattle.c25_isa.specs.declared.piece.PieceItem.TheVariants.{Do, CallTo};
ghost use Rattle.frame_emit.specs.Startup as spec;
ghost use Rattle.frame_emit.specs.Startup.{static_words};

use crate::code::Code;
use crate::initials::push_fillings;
use c_tree::Object;
use c25_isa::{Change, Indirect, Instr, JumpOp, Operand, Piece, PieceItem};
use std::alloc::Global;
use word_base::{NoMemory, Text};

/// The first word behind the scratch words.
const STATICS_START: u16 = 784;

/// No register changes.
const NO_CHANGE: Indirect = Indirect {
    change: Change::Stay,
    next: None,
};

// The words of static objects, each with its spare word.
#[tactic(auto, using(crate::proofs::Positions::more_words))]
fn words_of(objects: &[Object]) -> u16
    requires { static_words (map object_of objects.now) < 65536 }
    ensures { result ≡ static_words (map object_of objects.now) }
{
    let mut words = 0;
    let mut rest = objects;
    while let Some((object, behind)) = rest.split_first() {
        words += object.length + 1;
        rest = behind;
    }
    words
}

// What brings AR1 to the first of so many words, and their number into the accumulator.
fn push_head(code: &mut Code, count: u16) -> Result<(), NoMemory>
    ensures { OnOk result (code.new ≡ code.old ++ spec.clearing_head count) }
{
    code.push(Instr::Mar(Indirect {
        change: Change::Stay,
        next: Some(1),
    }))?;
    code.push(Instr::Lrlk {
        register: 1,
        word: STATICS_START,
    })?;
    code.push(Instr::Rsxm)?;
    code.push(Instr::Lalk {
        shift: 0,
        word: count,
    })
}

// The loop that clears them.
fn push_loop(code: &mut Code) -> Result<(), NoMemory>
    ensures { OnOk result (code.new ≡ code.old ++ clears_at_one 0) }
{
    code.push_item(PieceItem::Mark(0))?;
    code.push(Instr::Sach {
        shift: 0,
        operand: Operand::Indirect(Indirect {
            change: Change::Up,
            next: None,
        }),
    })?;
    code.push(Instr::Subk(1))?;
    code.push_item(PieceItem::Jump {
        op: JumpOp::Bnz,
        to: 0,
        operand: NO_CHANGE,
    })
}

// Static objects become 0, and get their first values.
fn push_statics(code: &mut Code, statics: &[u16], objects: &[Object]) -> Result<(), NoMemory>
    requires { static_words (map object_of objects.now) < 65536 }
    ensures { OnOk result (code.new ≡ code.old ++ spec.statics_items statics.now (map object_of objects.now)) }
{
    if objects.is_empty() {
        return Ok(());
    }
    push_head(code, words_of(objects))?;
    push_loop(code)?;
    push_fillings(code, statics, objects)
}

// The call of `main`, and the end.
fn push_end(alloc: Global, code: &mut Code) -> Result<(), NoMemory>
    ensures { OnOk result (code.new ≡ code.old ++ Do instr.Ssxm ∷ CallTo main_name no_change ∷ Do instr.Idle ∷ []) }
{
    code.push(Instr::Ssxm)?;
    code.push_item(PieceItem::CallTo {
        name: Text::copy_of(alloc, "main")?,
        operand: NO_CHANGE,
    })?;
    code.push(Instr::Idle)
}

/// The startup of a program with these static objects, at these addresses.
pub(crate) fn startup_piece(
    alloc: Global,
    statics: &[u16],
    objects: &[Object],
) -> Result<Piece, NoMemory>
    requires { static_words (map object_of objects.now) < 65536 }
    ensures { IfOk result (λ piece. piece_of piece ≡ spec.startup_piece statics.now (map object_of objects.now)) }
{
    let mut code = Code::new(alloc);
    code.push(Instr::Rovm)?;
    code.push(Instr::Spm)?;
    push_statics(&mut code, statics, objects)?;
    push_end(alloc, &mut code)?;
    Ok(code.unlisted_piece(Text::copy_of(alloc, ".start")?))
}
