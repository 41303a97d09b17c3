//! The text of tokens.
ghost use Rattle.std.specs.Prelude.{◌≡◌, ◌++◌, ◌≤◌, ◌<◌, length, codes, All, IfOk, OnOk};
ghost use Rattle.text_base.specs.Hex.{hex_digit, hex4};
ghost use Rattle.c_syntax.specs.Lexes.{Lexes, most_tokens};
ghost use Rattle.c_lexer.specs.TokenText as texts;
ghost use Rattle.c_lexer.specs.TokenText.{hexadecimal, number_text, suffix_text, kind_text, spelled, tokens_text, placed_from, HasSpelling};

use c_fixed_texts::{keyword_text, mark_text};
use c_syntax::{Punct, Token, TokenKind};
use std::alloc::Global;
use text_base::{push_decimal, push_hex};
use word_base::NoMemory;

/// The most hexadecimal digits of a number of 32 bits.
const HEXADECIMAL_DIGITS: u32 = 8;

// A lower-case digit.
fn digit_of(value: u32) -> u8
    requires { value < 16 }
    ensures { result ≡ hex_digit value }
{
    if value < 10 {
        b'0' + value as u8
    } else {
        b'a' + (value - 10) as u8
    }
}

// A number in hexadecimal digits without leading zeros, or its last ones where it has more than so many.
fn push_hexadecimal(text: &mut Vec<u8>, number: u32, most: u32) -> Result<(), NoMemory>
    ensures { OnOk result (text.new.items ≡ text.old.items ++ hexadecimal most number) }
{
    if most == 0 {
        return Ok(());
    }
    if number >= 16 {
        push_hexadecimal(text, number / 16, most - 1)?;
    }
    text.push(digit_of(number % 16))?;
    Ok(())
}

// An integer constant of this value.
fn push_number(
    text: &mut Vec<u8>,
    value: u32,
    unsigned_mark: bool,
    decimal: bool,
) -> Result<(), NoMemory>
    ensures { OnOk result (text.new.items ≡ text.old.items ++ (number_text value decimal ++ suffix_text unsigned_mark)) }
{
    if decimal {
        push_decimal(text, u64::from(value))?;
    } else {
        text.extend_from_slice(b"0x")?;
        push_hexadecimal(text, value, HEXADECIMAL_DIGITS)?;
    }
    if unsigned_mark {
        text.push(b'u')?;
    }
    Ok(())
}

// A character constant of this value.
fn push_character(text: &mut Vec<u8>, value: u16) -> Result<(), NoMemory>
    ensures { OnOk result (text.new.items ≡ text.old.items ++ (codes "'\\x" ++ (hex4 value ++ codes "'"))) }
{
    text.extend_from_slice(b"'\\x")?;
    push_hex(text, value)?;
    text.push(b'\'')?;
    Ok(())
}

// A spelling of a token.
fn push_kind(text: &mut Vec<u8>, kind: &TokenKind) -> Result<(), NoMemory>
    ensures { OnOk result (text.new.items ≡ text.old.items ++ kind_text kind.now) }
{
    match kind {
        TokenKind::Word(keyword) => text.extend_from_slice(keyword_text(*keyword).as_bytes())?,
        TokenKind::Name(name) => text.extend_from_slice(name.as_str().as_bytes())?,
        TokenKind::Number {
            value,
            unsigned_mark,
            decimal,
        } => push_number(text, *value, *unsigned_mark, *decimal)?,
        TokenKind::Char(value) => push_character(text, *value)?,
        TokenKind::Mark(mark) => text.extend_from_slice(mark_text(*mark).as_bytes())?,
    }
    Ok(())
}

// What stands behind a token.
fn separator(kind: &TokenKind) -> u8
    ensures { result ≡ texts.separator kind.now }
{
    match kind {
        TokenKind::Mark(Punct::Semicolon | Punct::OpenBrace | Punct::CloseBrace) => b'\n',
        _ => b' ',
    }
}

/// Adds what `token_text` gives of one token.
pub fn push_token_text(text: &mut Vec<u8>, kind: &TokenKind) -> Result<(), NoMemory>
    ensures { OnOk result (text.new.items ≡ text.old.items ++ spelled kind.now) }
{
    push_kind(text, kind)?;
    text.push(separator(kind))?;
    Ok(())
}

/// The text of tokens: a spelling of each, and behind it a line feed where that is `;`, `{` or `}`, and else one space. A
/// decimal number is the digits of its value, and another one `0x` and lower-case hexadecimal digits without leading zeros,
/// each with a `u` where it is marked. A character is `'\x`, four such digits of its value and `'`. Names, keywords and marks
/// are spelled as they were. Only the want of memory is refused.
///
/// Where each can be a token of a text and they are at most 200,000, as is so of what `lex` answers, the text has the same
/// tokens but for their places and lengths.
pub fn token_text(alloc: Global, tokens: &[Token]) -> Result<Vec<u8>, NoMemory>
    ensures text { IfOk result (λ text. text.items ≡ tokens_text tokens.now) }
    ensures lexes { IfOk result (λ text. All (λ t. HasSpelling t.kind) tokens.now → length tokens.now ≤ most_tokens
        → Lexes text.items (placed_from 0 tokens.now)) }
{
    let mut text = Vec::new(alloc);
    for token in tokens {
        push_token_text(&mut text, &token.kind)?;
    }
    Ok(text)
}
