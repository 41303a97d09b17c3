//! Blanks: spaces and comments.
ghost use Rattle.std.specs.Prelude.{◌↔◌, MatchOption, IsTrue};
ghost use Rattle.c_syntax.specs.Lexes.{HasNoCommentEnd, IsSpace};
ghost use Rattle.c_spellings.specs.Front.{HasNoBlank, IsBehindCommentEnd, IsBehindBlank};

use crate::prefix::behind;

// A space, a tab, a line feed, a vertical tab, a form feed or a carriage return.
fn is_space(byte: u8) -> bool
    ensures { IsTrue result ↔ IsSpace byte }
{
    matches!(byte, b' ' | b'\t'..=b'\r')
}

/// What stands behind the next `*/`; nothing where there is none.
#[tactic(auto, using(crate::proofs::BlankLemmas::passes_one, crate::proofs::BlankLemmas::behind_first, crate::proofs::BlankLemmas::passes_all, crate::proofs::BlankLemmas::passes_nothing))]
pub fn behind_end(bytes: &[u8]) -> Option<&[u8]>
    ensures { MatchOption result (HasNoCommentEnd bytes.now) (λ rest. IsBehindCommentEnd bytes.now rest.now) }
{
    let mut rest = bytes;
    while let Some((_, after)) = rest.split_first() {
        if let Some(behind) = behind(rest, b"*/") {
            return Some(behind);
        }
        rest = after;
    }
    None
}

/// What stands behind the blank at the front: a space, a tab, a line feed, a vertical tab, a form feed, a carriage
/// return, or a comment, which goes to the next `*/`.
#[tactic(auto, using(crate::proofs::BlankLemmas::behind_space, crate::proofs::BlankLemmas::behind_comment, crate::proofs::BlankLemmas::open_is_no_blank, crate::proofs::BlankLemmas::other_is_no_blank))]
pub fn behind_blank(bytes: &[u8]) -> Option<&[u8]>
    ensures { MatchOption result (HasNoBlank bytes.now) (λ rest. IsBehindBlank bytes.now rest.now) }
{
    let (first, rest) = bytes.split_first()?;
    if is_space(*first) {
        return Some(rest);
    }
    let inside = behind(bytes, b"/*")?;
    behind_end(inside)
}
