//! The lines of a listing, cut off its words one by one.
ghost use Rattle.std.specs.Prelude.{◌≡◌, ◌<◌, ◌≤◌, ◌∷◌, length, slice_index, IfSome};
ghost use Rattle.c25_isa.specs.Decode.{decode as decode_of};
ghost use Rattle.c25_dis.specs.Listing.{whole, lines_of};

use c25_isa::{Instr, decode};

/// What a line of a listing stands for.
#[derive(Clone, Copy)]
pub enum Line {
    Instruction(Instr),
    /// A word that is no instruction, or whose second word is missing.
    Data(u16),
}

// The word behind the first one, or 0.
fn second_word(words: &[u16]) -> u16
    ensures { result ≡ slice_index words.now 1 }
{
    if words.len() > 1 { words[1] } else { 0 }
}

// The instruction at the first word, and its length in words, where all of it is there.
#[tactic(auto, using(crate::proofs::Lines::length_some))]
fn first_instruction(words: &[u16]) -> Option<(Instr, u8)>
    requires { 0 < length words.now }
    ensures whole { result ≡ whole (length words.now) (decode_of (slice_index words.now 0) (slice_index words.now 1)) }
    ensures fits { IfSome result (λ found. (0 < found.1) × (found.1 ≤ length words.now)) }
{
    let (instr, length) = decode(words[0], second_word(words))?;
    if words.len() < usize::from(length) {
        return None;
    }
    Some((instr, length))
}

/// The first line of some words, and the words behind it.
#[tactic(auto, using(crate::proofs::Lines::of_instruction, crate::proofs::Lines::of_word))]
pub(crate) fn split_line(words: &[u16]) -> (Line, &[u16])
    requires { 0 < length words.now }
    ensures lines { lines_of words.now ≡ result.0 ∷ lines_of result.1.now }
    ensures shorter { length result.1.now < length words.now }
{
    match first_instruction(words) {
        Some((instr, length)) => (Line::Instruction(instr), &words[usize::from(length)..]),
        None => (Line::Data(words[0]), &words[1..]),
    }
}
