//! Code before it is linked.
ghost use Rattle.c25_isa.specs.Items.{ItemsFit, ItemsFit-prop};

use crate::instruction::{Instr, JumpOp};
use crate::operand::Indirect;
use word_base::Text;

/// An instruction, or what linking makes one of.
#[derive(Drop)]
pub enum PieceItem {
    Do(Instr),
    /// The place of a mark, which is known in its own piece alone. It takes no word.
    Mark(u32),
    /// A jump to a mark of the same piece.
    Jump {
        op: JumpOp,
        to: u32,
        operand: Indirect,
    },
    /// A call of the piece of that name.
    CallTo {
        name: Text,
        operand: Indirect,
    },
}

/// The code of one function, of the startup or of a helper. A listed one becomes a function of the image.
#[derive(Drop)]
pub struct Piece {
    pub name: Text,
    pub listed: bool,
    /// Each operand is in its range.
    pub items: Vec<PieceItem>,
    ghost fit: { ItemsFit items.items } by { ItemsFit-prop items.items },
}
