//! The longest mark.
ghost use Rattle.std.specs.Prelude.{◌≢◌, ◌++◌, ℕ, List, MatchOption};
ghost use Rattle.c_syntax.specs.declared.token.Punct.{Punct};
ghost use Rattle.c_syntax.specs.FixedTexts.{mark_text};
ghost use Rattle.c_spellings.specs.Front.{IsBehindMark};

use c_fixed_texts::{mark_of_one, mark_of_three, mark_of_two};
use c_syntax::Punct;

/// The longest mark at the front, and what stands behind it.
#[tactic(auto, using(crate::proofs::MarkLemmas::mark_size))]
pub fn mark(bytes: &[u8]) -> Option<(Punct, &[u8])>
    ensures { MatchOption result
        ((p : Punct) (rest : List ℕ) → bytes.now ≢ mark_text p ++ rest)
        (λ found. IsBehindMark bytes.now found.0 found.1.now) }
{
    if let Some(found) = mark_of_three(bytes) {
        return Some(found);
    }
    if let Some(found) = mark_of_two(bytes) {
        return Some(found);
    }
    mark_of_one(bytes)
}
