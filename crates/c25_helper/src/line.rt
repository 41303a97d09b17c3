//! Lines of code that name no piece, which constants may hold.
ghost use Rattle.std.specs.Prelude.{◌≡◌, map, IfOk};
ghost use Rattle.c25_helper.specs.Lines.{line_item};

use c25_isa::{Change, Indirect, Instr, JumpOp, PieceItem};
use std::alloc::Global;
use word_base::NoMemory;

/// An instruction, the place of a mark, or a jump to one.
#[derive(Clone, Copy)]
pub enum Line {
    Do(Instr),
    Mark(u32),
    Jump(JumpOp, u32),
}

impl Line {
    fn item(self) -> PieceItem
        ensures { result ≡ line_item self }
    {
        match self {
            Line::Do(instr) => PieceItem::Do(instr),
            Line::Mark(mark) => PieceItem::Mark(mark),
            Line::Jump(op, to) => PieceItem::Jump {
                op,
                to,
                operand: Indirect {
                    change: Change::Stay,
                    next: None,
                },
            },
        }
    }
}

/// The items of lines.
pub fn items_of(alloc: Global, lines: &[Line]) -> Result<Vec<PieceItem>, NoMemory>
    ensures { IfOk result (λ items. items.items ≡ map line_item lines.now) }
{
    let mut items = Vec::new(alloc);
    for line in lines {
        items.push(line.item())?;
    }
    Ok(items)
}
