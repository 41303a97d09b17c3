//! The image of pieces.
ghost use Rattle.std.specs.Prelude.{◌≡◌, ◌<◌, ◌≤◌, ◌^◌, map, IfErr, IfOk};
ghost use Rattle.c25_isa.specs.Pieces.{piece_of, Linked};
ghost use Rattle.c25_link.specs.Linking.{pieces_words as words_together, linked_image, AreLinkable, IsFaultOf};

use crate::code::code_of;
use crate::fault::LinkFault;
use crate::functions::functions_of;
use crate::names::Names;
use crate::sizes::pieces_words;
use c25_isa::{Image, Piece, words_of};
use std::alloc::Global;

/// How many words program memory has.
pub const CODE_WORDS: u32 = 0x1_0000;

/// The image of pieces one behind another from program word 0 on, for pieces each of which has its marks and calls names of pieces.
/// They are refused as `CodeFull` where they take more than 65,536 words together; else memory may be wanting.
pub fn link(alloc: Global, pieces: &[Piece]) -> Result<Image, LinkFault>
    requires linkable { AreLinkable (map piece_of pieces.now) }
    requires counted { words_together (map piece_of pieces.now) < 2 ^ 32 }
    ensures image { IfOk result (λ image. image ≡ linked_image (map piece_of pieces.now)) }
    ensures linked { IfOk result (λ image. Linked (map piece_of pieces.now) image) }
    ensures fits { IfOk result (λ _. words_together (map piece_of pieces.now) ≤ 65536) }
    ensures refused { IfErr result (IsFaultOf (map piece_of pieces.now)) }
{
    let words = pieces_words(pieces);
    if words > CODE_WORDS {
        return Err(LinkFault::CodeFull { words });
    }
    let names = Names::of(alloc, pieces)?;
    let code = code_of(alloc, pieces, &names)?;
    let words = words_of(alloc, &code)?;
    let functions = functions_of(alloc, pieces)?;
    Ok(Image::new(words, functions))
}
