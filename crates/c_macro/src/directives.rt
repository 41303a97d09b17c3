//! Directive lines, and the names in them.
ghost use Rattle.std.specs.Prelude.{◌≡◌, ◌<◌, ◌≤◌, ◌^◌, ℕ, List, length, MatchOption};
ghost use Rattle.c_macro.specs.Directives.{IsOther, IsNamed, IsLoneName};
ghost use Rattle.c_macro.specs.Views.{IsDirectiveOf};

use crate::lines::after_blanks;
use c_lexer::name_run;
use c_spellings::behind;
use word_base::name_text;

/// A line that is a directive. Its places are counted from the line's first byte.
#[derive(Clone, Copy)]
pub(crate) struct Directive<'a> {
    /// Where its `#` is.
    pub(crate) hash: u32,
    /// The letters, digits and `_` after `#` and blanks, as many as there are.
    pub(crate) word: &'a [u8],
    /// Where the rest begins.
    pub(crate) at: u32,
    /// What follows the word.
    pub(crate) rest: &'a [u8],
}

/// The directive that a line is: its first byte after blanks is `#`.
pub(crate) fn read_directive(line: &[u8]) -> Option<Directive<'_>>
    requires { length line.now < 2 ^ 32 }
    ensures { MatchOption result (IsOther line.now) (λ directive. IsDirectiveOf line.now directive) }
{
    let front = after_blanks(line);
    let Some(after) = behind(front, b"#") else {
        return None;
    };
    let (word, rest) = name_run(after_blanks(after));
    Some(Directive {
        hash: (line.len() - front.len()) as u32,
        word,
        at: (line.len() - rest.len()) as u32,
        rest,
    })
}

/// A name or a keyword that comes first in a text, after blanks.
#[derive(Clone, Copy)]
pub(crate) struct Named<'a> {
    /// Where it is, counted from the text's first byte.
    pub(crate) at: u32,
    pub(crate) name: &'a str,
    /// What follows it.
    pub(crate) rest: &'a [u8],
}

/// The name that comes first in a text, where one does.
pub(crate) fn read_name(text: &[u8]) -> Option<Named<'_>>
    requires { length text.now < 2 ^ 32 }
    ensures { MatchOption result
        ((at : ℕ) (name rest : List ℕ) → IsNamed text.now at name rest → ⊥)
        (λ found. IsNamed text.now found.at found.name.now found.rest.now) }
{
    let after = after_blanks(text);
    let (run, rest) = name_run(after);
    let Some(name) = name_text(run) else {
        return None;
    };
    Some(Named {
        at: (text.len() - after.len()) as u32,
        name,
        rest,
    })
}

/// The name that a text is but for blanks, where it is one.
pub(crate) fn read_lone_name(text: &[u8]) -> Option<&str>
    requires { length text.now < 2 ^ 32 }
    ensures { MatchOption result ((name : List ℕ) → IsLoneName text.now name → ⊥) (λ name. IsLoneName text.now name.now) }
{
    let Some(found) = read_name(text) else {
        return None;
    };
    if after_blanks(found.rest).is_empty() {
        Some(found.name)
    } else {
        None
    }
}
