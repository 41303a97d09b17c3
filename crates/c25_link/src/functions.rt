//! The functions of an image.
ghost use Rattle.std.specs.Prelude.{◌≡◌, ◌+◌, ◌≤◌, ◌++◌, [], ◌∷◌, All, map, true, if◌then◌else◌, IfOk, OnOk};
ghost use Rattle.c25_isa.specs.Pieces.{piece_of, items_size, range_of, listed_ranges};
ghost use Rattle.c25_link.specs.Linking.{pieces_words, IsLinkable};

use crate::sizes::{items_words, wrap16};
use c25_isa::{FunctionRange, Piece};
use std::alloc::Global;
use word_base::{NoMemory, Text};

/// The ranges of the listed ones of pieces that stand one behind another from program word 0 on.
pub fn functions_of(alloc: Global, pieces: &[Piece]) -> Result<Vec<FunctionRange>, NoMemory>
    requires short { pieces_words (map piece_of pieces.now) ≤ 65536 }
    requires listed { All (λ p. IsLinkable (piece_of p)) pieces.now }
    ensures { IfOk result (λ functions. functions.items ≡ listed_ranges 0 (map piece_of pieces.now)) }
{
    let mut functions = Vec::new(alloc);
    let mut address = 0;
    for piece in pieces {
        push_range(alloc, &mut functions, piece, address)?;
        address += items_words(&piece.items);
    }
    Ok(functions)
}

// The range of a piece from an address on, where it is listed.
fn push_range(
    alloc: Global,
    functions: &mut Vec<FunctionRange>,
    piece: &Piece,
    address: u32,
) -> Result<(), NoMemory>
    requires short { address + items_size piece.now.items.items ≤ 65536 }
    requires listed { piece.now.listed ≡ true → 1 ≤ items_size piece.now.items.items }
    ensures { OnOk result (functions.new.items ≡ functions.old.items
        ++ (if piece.now.listed then range_of piece.now.name address (items_size piece.now.items.items) ∷ [] else [])) }
{
    if !piece.listed {
        return Ok(());
    }
    let words = items_words(&piece.items);
    functions.push(FunctionRange {
        name: Text::copy_of(alloc, piece.name.as_str())?,
        first: wrap16(address),
        last: wrap16(address + words - 1),
    })?;
    Ok(())
}
