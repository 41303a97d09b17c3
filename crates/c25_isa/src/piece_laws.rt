//! Laws of pieces in an image. The call does nothing: its clause is what crates above cite.
ghost use Rattle.std.specs.Prelude.{◌≡◌, List};
ghost use Rattle.c25_isa.specs.Image.{Contents};
ghost use Rattle.c25_isa.specs.Pieces.{Piece, piece_address, pieces_code, listed_ranges, ListedHaveWords, Linked};
ghost use Rattle.c25_isa.specs.Step.{wrap16};
ghost use Rattle.c25_isa.specs.Table.{code_words};

/// An image whose words are those of pieces one behind another from program word 0 on, with the ranges of the listed ones, is linked from them.
pub fn images_in_order_are_linked()
    ensures linked { (pieces : List Piece) (image : Contents) → image.words ≡ code_words (pieces_code (λ name. wrap16 (piece_address 0 pieces name)) 0 pieces)
        → image.functions ≡ listed_ranges 0 pieces → ListedHaveWords pieces → Linked pieces image }
{}
