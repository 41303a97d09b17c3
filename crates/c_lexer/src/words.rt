//! Words: names and keywords (ISO 9899:1990 6.1.1 and 6.1.2).
ghost use Rattle.std.specs.Prelude.{◌<◌, length, IfOk, MatchOption};
ghost use Rattle.c_syntax.specs.Spelling.{IsNameRun, Means};

use c_fixed_texts::keyword;
use c_syntax::TokenKind;
use std::alloc::Global;
use word_base::{NoMemory, Text, name_text};

/// What a word means: a keyword, or the name that it is, or nothing where it has more than 127 characters.
pub fn word(alloc: Global, text: &[u8]) -> Result<Option<TokenKind>, NoMemory>
    requires { IsNameRun text.now }
    ensures { IfOk result (λ kind. MatchOption kind (127 < length text.now) (Means text.now)) }
{
    if let Some(keyword) = keyword(text) {
        return Ok(Some(TokenKind::Word(keyword)));
    }
    let Some(name) = name_text(text) else {
        return Ok(None);
    };
    Ok(Some(TokenKind::Name(Text::copy_of(alloc, name)?)))
}
