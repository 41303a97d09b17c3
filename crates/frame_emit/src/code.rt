//! The items of a piece while it is made.
ghost use Rattle.std.specs.Prelude.{◌≡◌, ◌++◌, ◌∷◌, [], false, OnOk};
ghost use Rattle.c25_isa.specs.Items.{ItemFits};
ghost use Rattle.c25_isa.specs.Pieces.{piece_of};
ghost use Rattle.c25_isa.specs.Table.{IsInstr};
ghost use Rattle.c25_isa.specs.declared.piece.PieceItem.TheVariants.{Do};

use c25_isa::{Instr, Piece, PieceItem};
use std::alloc::Global;
use std::marker::Model;
use word_base::{NoMemory, Text};

/// Items whose operands are in their ranges. Contracts see the list of them.
#[derive(Drop)]
pub(crate) struct Code {
    items: Vec<PieceItem>,
}

impl Model for Code {
    ghost use Rattle.std.specs.Prelude.{List};
    ghost use Rattle.c25_isa.specs.declared.piece.PieceItem.{PieceItem};
    ghost use Rattle.c25_isa.specs.Items.{ItemsFit};

    ghost Value = { List PieceItem };

    ghost view = { λ c. c.items.items };

    ghost invariant = { λ c. ItemsFit c.items.items };
}

impl Code {
    pub(crate) fn new(alloc: Global) -> Self
        ensures { result ≡ [] }
    {
        Code {
            items: Vec::new(alloc),
        }
    }

    #[tactic(auto, using(crate::proofs::Appending::one_more_fits))]
    pub(crate) fn push_item(&mut self, item: PieceItem) -> Result<(), NoMemory>
        requires { ItemFits item }
        ensures { OnOk result (self.new ≡ self.old ++ item ∷ []) }
    {
        Ok(self.items.push(item)?)
    }

    pub(crate) fn push(&mut self, instr: Instr) -> Result<(), NoMemory>
        requires { IsInstr instr }
        ensures { OnOk result (self.new ≡ self.old ++ Do instr ∷ []) }
    {
        self.push_item(PieceItem::Do(instr))
    }

    /// The piece of these items, which isn't listed. It takes no memory.
    pub(crate) fn unlisted_piece(self, name: Text) -> Piece
        ensures { piece_of result ≡ record { name = name; listed = false; items = self } }
    {
        Piece {
            name,
            listed: false,
            items: self.items,
        }
    }
}
