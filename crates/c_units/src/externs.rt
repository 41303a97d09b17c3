//! The words `extern` that are dropped.
ghost use Rattle.std.specs.Prelude.{◌≡◌, ◌+◌, ◌<◌, ◌≤◌, ◌^◌, ◌&&◌, ◌++◌, ◌∷◌, IfOk};
ghost use Rattle.c_units.specs.Externs as externs;
ghost use Rattle.c_units.specs.Externs.{AtStart};
ghost use Rattle.c_units.specs.Views.{position_of, depth_of};

use c_syntax::{Keyword, Punct, Token, TokenKind};
use std::alloc::Global;
use std::collections::VecDeque;
use word_base::NoMemory;

/// Where the tokens before a token leave off.
#[derive(Clone, Copy)]
pub(crate) enum Position {
    /// At the start of an external.
    AtStart,
    /// Within one, outside braces; whether `=` is the last token.
    Within { assigned: bool },
    /// Within so many braces more than one, which are those of a list or of a body.
    Braced { list: bool, depth: usize },
}

// Whether a token is the word `extern`.
fn is_extern(kind: &TokenKind) -> bool
    ensures { result ≡ externs.is_extern kind.now }
{
    matches!(kind, TokenKind::Word(Keyword::Extern))
}

// Outside braces: a `;` ends an external, and a brace after an `=` is that of a list.
fn outside(assigned: bool, kind: &TokenKind) -> Position
    ensures { position_of result ≡ externs.outside assigned kind.now }
{
    match kind {
        TokenKind::Mark(Punct::Semicolon) => Position::AtStart,
        TokenKind::Mark(Punct::OpenBrace) => Position::Braced {
            list: assigned,
            depth: 0,
        },
        TokenKind::Mark(Punct::Assign) => Position::Within { assigned: true },
        _ => Position::Within { assigned: false },
    }
}

// Within braces: the last one ends a body, and with it an external, or a list.
fn inside(list: bool, depth: usize, kind: &TokenKind) -> Position
    requires { depth + 1 < 2 ^ 63 }
    ensures { position_of result ≡ externs.inside list depth kind.now }
{
    match kind {
        TokenKind::Mark(Punct::OpenBrace) => Position::Braced {
            list,
            depth: depth + 1,
        },
        TokenKind::Mark(Punct::CloseBrace) if depth > 0 => Position::Braced {
            list,
            depth: depth - 1,
        },
        TokenKind::Mark(Punct::CloseBrace) if list => Position::Within { assigned: false },
        TokenKind::Mark(Punct::CloseBrace) => Position::AtStart,
        _ => Position::Braced { list, depth },
    }
}

// Where the tokens up to this one leave off.
fn after(position: Position, kind: &TokenKind) -> Position
    requires { depth_of position + 1 < 2 ^ 63 }
    ensures { position_of result ≡ externs.after_token (position_of position) kind.now }
{
    match position {
        Position::AtStart => outside(false, kind),
        Position::Within { assigned } => outside(assigned, kind),
        Position::Braced { list, depth } => inside(list, depth, kind),
    }
}

// Whether `extern` is dropped here, where a token follows.
fn drops(position: Position, kind: &TokenKind) -> bool
    ensures { result ≡ externs.is_start (position_of position) && externs.is_extern kind.now }
{
    matches!(position, Position::AtStart) && is_extern(kind)
}

/// The tokens of a file that are left, and the places of those that followed a dropped one, in bytes.
#[derive(Drop)]
pub(crate) struct Kept {
    pub(crate) tokens: Vec<Token>,
    pub(crate) externs: Vec<u32>,
}

// Drops or keeps a token before the rest, and says where the tokens up to it leave off.
fn read_token(
    position: Position,
    token: Token,
    rest: &VecDeque<Token>,
    kept: &mut Kept,
) -> Result<Position, NoMemory>
    requires { depth_of position + 1 < 2 ^ 63 }
    ensures tokens { IfOk result (λ following. kept.new.tokens.items ++ externs.kept (position_of following) rest.now.items
        ≡ kept.old.tokens.items ++ externs.kept (position_of position) (token ∷ rest.now.items)) }
    ensures places { IfOk result (λ following. kept.new.externs.items ++ externs.extern_places (position_of following) rest.now.items
        ≡ kept.old.externs.items ++ externs.extern_places (position_of position) (token ∷ rest.now.items)) }
    ensures depth { IfOk result (λ following. depth_of following ≤ depth_of position + 1) }
{
    match rest.front() {
        Some(next) if drops(position, &token.kind) => {
            kept.externs.push(next.at)?;
            Ok(Position::Within { assigned: false })
        }
        _ => {
            let following = after(position, &token.kind);
            kept.tokens.push(token)?;
            Ok(following)
        }
    }
}

/// The tokens of a file without each `extern` at the start of an external.
pub(crate) fn without_externs(alloc: Global, tokens: Vec<Token>) -> Result<Kept, NoMemory>
    ensures tokens { IfOk result (λ kept. kept.tokens.items ≡ externs.without_externs tokens.items) }
    ensures places { IfOk result (λ kept. kept.externs.items ≡ externs.extern_places AtStart tokens.items) }
{
    let mut kept = Kept {
        tokens: Vec::new(alloc),
        externs: Vec::new(alloc),
    };
    let mut position = Position::AtStart;
    let mut rest = VecDeque::from(tokens);
    while let Some(token) = rest.pop_front() {
        position = read_token(position, token, &rest, &mut kept)?;
    }
    Ok(kept)
}
