//! The instructions of pieces, where marks and names have addresses.
ghost use Rattle.std.specs.Prelude.{◌≡◌, ◌≤◌, ◌++◌, map, IfOk, OnOk};
ghost use Rattle.c25_isa.specs.Pieces.{piece_of, item_code, items_code, pieces_code};
ghost use Rattle.c25_link.specs.Linking.{pieces_words};
ghost use Rattle.c25_link.specs.Addresses.{mark_in, name_in};

use crate::marks::Marks;
use crate::names::Names;
use crate::sizes::items_words;
use c25_isa::{Instr, Piece, PieceItem};
use std::alloc::Global;
use word_base::NoMemory;

/// The instructions of pieces that stand one behind another from program word 0 on.
pub fn code_of(alloc: Global, pieces: &[Piece], names: &Names) -> Result<Vec<Instr>, NoMemory>
    requires { pieces_words (map piece_of pieces.now) ≤ 65536 }
    ensures { IfOk result (λ code. code.items ≡ pieces_code (name_in names.now) 0 (map piece_of pieces.now)) }
{
    let mut code = Vec::new(alloc);
    let mut address = 0;
    for piece in pieces {
        let marks = Marks::of(alloc, &piece.items, address)?;
        push_items(&mut code, &piece.items, &marks, names)?;
        address += items_words(&piece.items);
    }
    Ok(code)
}

// The instructions of items, behind those before them.
fn push_items(
    code: &mut Vec<Instr>,
    items: &[PieceItem],
    marks: &Marks,
    names: &Names,
) -> Result<(), NoMemory>
    ensures { OnOk result (code.new.items ≡ code.old.items ++ items_code (mark_in marks.now) (name_in names.now) items.now) }
{
    for item in items {
        push_item(code, item, marks, names)?;
    }
    Ok(())
}

// The instruction of an item, where it has one.
fn push_item(
    code: &mut Vec<Instr>,
    item: &PieceItem,
    marks: &Marks,
    names: &Names,
) -> Result<(), NoMemory>
    ensures { OnOk result (code.new.items ≡ code.old.items ++ item_code (mark_in marks.now) (name_in names.now) item.now) }
{
    match item {
        PieceItem::Do(instr) => code.push(*instr)?,
        PieceItem::Mark(_) => {}
        PieceItem::Jump { op, to, operand } => code.push(Instr::Branch {
            op: *op,
            to: marks.address(*to),
            operand: *operand,
        })?,
        PieceItem::CallTo { name, operand } => code.push(Instr::Call {
            to: names.address(name.as_str()),
            operand: *operand,
        })?,
    }
    Ok(())
}
