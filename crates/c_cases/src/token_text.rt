//! Tokens as one line.
use c_syntax::{Token, TokenKind};
use word_base::NoMemory;

/// Puts the tokens of a source behind, or `none` where there is none.
pub(crate) fn push_tokens(line: &mut String, tokens: &[Token]) -> Result<(), NoMemory> {
    if tokens.is_empty() {
        line.push_str("none")?;
    }
    let mut between = "";
    for token in tokens {
        line.push_str(between)?;
        push_token(line, token)?;
        between = ", ";
    }
    Ok(())
}

// Puts a token behind: its kind and value, its place and its length.
fn push_token(line: &mut String, token: &Token) -> Result<(), NoMemory> {
    let Token { kind, at, len } = token;
    match kind {
        TokenKind::Word(keyword) => write!(line, "word {keyword:?}")?,
        TokenKind::Name(name) => write!(line, "name {}", name.as_str())?,
        TokenKind::Number {
            value,
            unsigned_mark,
            decimal,
        } => push_number(line, *value, *unsigned_mark, *decimal)?,
        TokenKind::Char(value) => write!(line, "char {value}")?,
        TokenKind::Mark(mark) => write!(line, "mark {mark:?}")?,
    }
    write!(line, "@{at}+{len}")?;
    Ok(())
}

fn push_number(
    line: &mut String,
    value: u32,
    unsigned_mark: bool,
    decimal: bool,
) -> Result<(), NoMemory> {
    let mark = if unsigned_mark { "unsigned" } else { "plain" };
    let base = if decimal { "decimal" } else { "other" };
    write!(line, "number {value} {mark} {base}")?;
    Ok(())
}
