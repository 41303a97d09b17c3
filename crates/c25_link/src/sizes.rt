//! How many words code takes, and the addresses that it has so.
ghost use Rattle.std.specs.Prelude.{◌≡◌, ◌+◌, ◌<◌, ◌≤◌, ◌^◌, map, MatchOption};
ghost use Rattle.c25_isa.specs.Pieces.{piece_of, item_size, items_size};
ghost use Rattle.c25_isa.specs.Step.{wrap16 as wrapped};
ghost use Rattle.c25_isa.specs.Table.{length_of, second_word};
ghost use Rattle.c25_link.specs.Linking.{pieces_words as words_together};

use c25_isa::{Instr, Piece, PieceItem};

/// How many words the pieces take together.
pub fn pieces_words(pieces: &[Piece]) -> u32
    requires { words_together (map piece_of pieces.now) < 2 ^ 32 }
    ensures { result ≡ words_together (map piece_of pieces.now) }
{
    let mut words = 0;
    for piece in pieces {
        words += items_words(&piece.items);
    }
    words
}

/// How many words the pieces take together, where that is a number of 32 bits.
pub fn counted_words(pieces: &[Piece]) -> Option<u32>
    ensures { MatchOption result (2 ^ 32 ≤ words_together (map piece_of pieces.now)) (λ words. words ≡ words_together (map piece_of pieces.now)) }
{
    let mut words: u32 = 0;
    for piece in pieces {
        words = with_items(words, &piece.items)?;
    }
    Some(words)
}

// A number of words with those of items.
fn with_items(before: u32, items: &[PieceItem]) -> Option<u32>
    ensures { MatchOption result (2 ^ 32 ≤ before + items_size items.now) (λ words. words ≡ before + items_size items.now) }
{
    let mut words = before;
    for item in items {
        words = words.checked_add(item_words(item))?;
    }
    Some(words)
}

/// How many words items take.
pub fn items_words(items: &[PieceItem]) -> u32
    requires { items_size items.now < 2 ^ 32 }
    ensures { result ≡ items_size items.now }
{
    let mut words = 0;
    for item in items {
        words += item_words(item);
    }
    words
}

/// How many words an item takes.
pub fn item_words(item: &PieceItem) -> u32
    ensures { result ≡ item_size item.now }
{
    match item {
        PieceItem::Do(instr) => instr_words(instr),
        PieceItem::Mark(_) => 0,
        PieceItem::Jump { .. } | PieceItem::CallTo { .. } => 2,
    }
}

// How many words an instruction takes.
fn instr_words(instr: &Instr) -> u32
    ensures { result ≡ length_of (second_word instr.now) }
{
    match instr.fields().second_word() {
        None => 1,
        Some(_) => 2,
    }
}

/// The address behind so many words: that behind the last word of program memory is 0.
pub fn wrap16(words: u32) -> u16
    ensures { result ≡ wrapped words }
{
    (words % 0x1_0000) as u16
}
