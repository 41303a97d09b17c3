//! Lines, and the blanks at their front.
ghost use Rattle.std.specs.Prelude.{◌≡◌, ◌≢◌, ◌<◌, ◌+◌, ◌^◌, [], true, MatchOption};
ghost use Rattle.c_macro.specs.Lines as lines;
ghost use Rattle.c_macro.specs.Lines.{IsAfterBlanks};
ghost use Rattle.c_macro.specs.Views.{IsAfterPart};

use c_lexer::{LexFault, behind_blank, behind_end};
use c_spellings::behind;

/// How far the first line of a text goes.
#[derive(Clone, Copy)]
pub(crate) struct LineSize {
    /// Its bytes, up to its line feed or a comment that isn't closed, or to the end of the text.
    pub(crate) bytes: usize,
    /// Whether a comment that isn't closed follows.
    pub(crate) is_open: bool,
}

impl LineSize {
    /// The comment that isn't closed after a line that begins at a place.
    pub(crate) fn open_comment(self, at: u32) -> Option<LexFault>
        requires { at + self.bytes < 2 ^ 32 }
        ensures { result ≡ lines.open_comment at self }
    {
        if self.is_open {
            Some(LexFault::OpenComment {
                at: at + self.bytes as u32,
            })
        } else {
            None
        }
    }
}

// What follows the comment at the front, or else the first byte; nothing where the comment isn't closed.
#[tactic(auto, using(crate::proofs::LineLemmas::open_part, crate::proofs::LineLemmas::comment_part, crate::proofs::LineLemmas::byte_part))]
fn after_part(text: &[u8]) -> Option<&[u8]>
    requires some { text.now ≢ [] }
    ensures { MatchOption result (lines.first_line text.now ≡ record { bytes = 0; is_open = true }) (λ rest. IsAfterPart text.now rest.now) }
{
    match behind(text, b"/*") {
        Some(inside) => behind_end(inside),
        None => {
            let (_, rest) = text.split_first()?;
            Some(rest)
        }
    }
}

/// How far the first line of a text goes: comments hide line feeds.
pub(crate) fn line_size(text: &[u8]) -> LineSize
    ensures { result ≡ lines.first_line text.now }
{
    let mut rest = text;
    while !rest.is_empty() {
        let is_end = rest[0] == b'\n';
        match after_part(rest) {
            Some(after) => rest = after,
            None => {
                return LineSize {
                    bytes: text.len() - rest.len(),
                    is_open: true,
                };
            }
        }
        if is_end {
            break;
        }
    }
    LineSize {
        bytes: text.len() - rest.len(),
        is_open: false,
    }
}

/// What follows the blanks at the front.
#[tactic(auto, using(crate::proofs::LineLemmas::passes_none, crate::proofs::LineLemmas::passes_blank, crate::proofs::LineLemmas::passes_all))]
pub(crate) fn after_blanks(text: &[u8]) -> &[u8]
    ensures { IsAfterBlanks text.now result.now }
{
    let mut rest = text;
    while let Some(after) = behind_blank(rest) {
        rest = after;
    }
    rest
}
