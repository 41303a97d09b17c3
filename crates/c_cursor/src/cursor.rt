//! Where a parser stands in its tokens.
ghost use Rattle.std.specs.Prelude.{◌≡◌, ◌≢◌, ◌↔◌, ◌<◌, ◌-◌, ◌^◌, length, IfOk, IfErr, IsTrue, IsSome, MatchOption, ◌∷◌, Some, None, true, if◌then◌else◌};
ghost use Rattle.c_syntax.specs.Grammar.{place_of};
ghost use Rattle.c_syntax.specs.Lookahead.{spec_of, kind_spec, keyword_spec};
ghost use Rattle.c_cursor.specs.declared.fault.Refusal.TheVariants as refusals;
ghost use Rattle.c_cursor.specs.Front.{behind, kind_at, kind_mark, kind_word, kind_name, mark_at, word_at, name_at, opens_type, is_open, is_there, opens, is_void_alone, is_void_word, is_void_kind, is_close_kind, is_separator_kind, is_separator_at};

use crate::fault::Refusal;
use c_syntax::{Keyword, Punct, SpecWord, Token, TokenKind};
use std::marker::Model;

/// The tokens that are left, fewer than 2 to the 32nd. Contracts see the list of them.
#[derive(Drop)]
pub struct Cursor<'a> {
    rest: &'a [Token],
}

impl<'a> Model for Cursor<'a> {
    ghost use Rattle.std.specs.Prelude.{List, length, ◌<◌, ◌^◌};
    ghost use Rattle.c_syntax.specs.declared.token.Token.{Token};

    ghost Value = { List Token };

    ghost view = { λ c. c.rest.now };

    ghost invariant = { λ c. length c.rest.now < 2 ^ 32 };
}

impl<'a> Cursor<'a> {
    /// Before the first of these tokens.
    pub fn new(tokens: &'a [Token]) -> Self
        requires { length tokens.now < 2 ^ 32 }
        ensures { result ≡ tokens.now }
    {
        Cursor { rest: tokens }
    }

    /// Whether no token is left.
    pub fn is_at_end(&self) -> bool
        ensures { IsTrue result ↔ (length self.now ≡ 0) }
    {
        self.rest.is_empty()
    }

    /// How many tokens are left.
    pub fn left(&self) -> u32
        ensures left { result ≡ length self.now }
        ensures few { length self.now < 2 ^ 32 }
    {
        self.rest.len() as u32
    }

    /// The place of the next token, or 0 where none is left.
    pub fn place(&self) -> u32
        ensures { 0 < length self.now → result ≡ place_of self.now }
    {
        match self.rest.split_first() {
            Some((token, _)) => token.at,
            None => 0,
        }
    }

    /// The refusal of the next token.
    pub fn refused(&self) -> Refusal
        ensures { result ≡ refusals.Syntax (length self.now) }
    {
        Refusal::Syntax { left: self.left() }
    }

    /// The kind of the next token, where there is one.
    pub fn kind(&self) -> Option<&'a TokenKind>
        ensures { MatchOption result (kind_at self.now ≡ None) (λ kind. kind_at self.now ≡ Some kind.now) }
    {
        match self.rest.split_first() {
            Some((token, _)) => Some(&token.kind),
            None => None,
        }
    }

    /// Passes over the next token, where there is one.
    pub fn skip(&mut self)
        ensures behind { self.new ≡ behind self.old }
        ensures fewer { length self.new ≡ length self.old - 1 }
    {
        if let Some((_, rest)) = self.rest.split_first() {
            self.rest = rest;
        }
    }

    /// The next token's mark, where it is one.
    pub fn mark(&self) -> Option<Punct>
        ensures { result ≡ mark_at self.now }
    {
        match self.rest.split_first() {
            Some((token, _)) => mark_of(&token.kind),
            None => None,
        }
    }

    /// The next token's keyword, where it is one.
    pub fn keyword(&self) -> Option<Keyword>
        ensures { result ≡ word_at self.now }
    {
        match self.rest.split_first() {
            Some((token, _)) => word_of(&token.kind),
            None => None,
        }
    }

    /// The next token's word of a type, where it is one.
    pub fn spec_word(&self) -> Option<SpecWord>
        ensures { result ≡ spec_of self.now }
    {
        spec_at(self.rest)
    }

    /// Whether `(` and a word of a type stand next.
    pub fn opens_type(&self) -> bool
        ensures { result ≡ opens_type self.now }
    {
        match self.rest.split_first() {
            Some((token, rest)) => is_open(&token.kind) && spec_at(rest).is_some(),
            None => false,
        }
    }

    /// Whether the mark stands next.
    pub fn stands(&self, mark: Punct) -> bool
        ensures { IsTrue result ↔ (mark_at self.now ≡ Some mark) }
    {
        match self.mark() {
            Some(next) => next == mark,
            None => false,
        }
    }

    /// Whether the one word `void` stands before `)`: no parameters.
    pub fn is_void_alone(&self) -> bool
        ensures { result ≡ is_void_alone self.now }
    {
        let Some((token, rest)) = self.rest.split_first() else {
            return false;
        };
        let Some((behind, _)) = rest.split_first() else {
            return false;
        };
        is_void(&token.kind) && closes(&behind.kind)
    }

    /// Whether the one word `void` stands before `,` or `)`: no parameter.
    pub fn is_void_word(&self) -> bool
        ensures { result ≡ is_void_word self.now }
    {
        let Some((token, rest)) = self.rest.split_first() else {
            return false;
        };
        let Some((behind, _)) = rest.split_first() else {
            return false;
        };
        is_void(&token.kind) && separates(&behind.kind)
    }

    /// Whether `,` or `)` stands next.
    pub fn separates(&self) -> bool
        ensures { result ≡ is_separator_at self.now }
    {
        match self.rest.split_first() {
            Some((token, _)) => separates(&token.kind),
            None => false,
        }
    }

    /// The refusal of the token behind the next one.
    pub fn refused_behind(&self) -> Refusal
        ensures { result ≡ refusals.Syntax (length self.now - 1) }
    {
        Refusal::Syntax {
            left: self.left().saturating_sub(1),
        }
    }

    /// Whether a name stands next.
    pub fn is_name(&self) -> bool
        ensures { IsTrue result ↔ IsSome (name_at self.now) }
    {
        match self.kind() {
            Some(TokenKind::Name(_)) => true,
            _ => false,
        }
    }

    /// Takes the mark, or leaves all as it is.
    pub fn take(&mut self, mark: Punct) -> bool
        ensures taken { IsTrue result ↔ (mark_at self.old ≡ Some mark) }
        ensures left { self.new ≡ (if result then behind self.old else self.old) }
    {
        if !self.stands(mark) {
            return false;
        }
        self.skip();
        true
    }

    /// Takes the mark; another token, or the end, is refused.
    pub fn expect(&mut self, mark: Punct) -> Result<(), Refusal>
        ensures taken { IfOk result (λ _. mark_at self.old ≡ Some mark) }
        ensures left { IfOk result (λ _. self.new ≡ behind self.old) }
        ensures refused { IfErr result (λ _. mark_at self.old ≢ Some mark) }
    {
        if self.take(mark) {
            Ok(())
        } else {
            Err(self.refused())
        }
    }

    /// Whether the keyword stands next.
    pub fn stands_word(&self, keyword: Keyword) -> bool
        ensures { IsTrue result ↔ (word_at self.now ≡ Some keyword) }
    {
        match self.keyword() {
            Some(next) => next == keyword,
            None => false,
        }
    }

    /// Takes the keyword, or leaves all as it is.
    pub fn take_keyword(&mut self, keyword: Keyword) -> bool
        ensures taken { IsTrue result ↔ (word_at self.old ≡ Some keyword) }
        ensures left { self.new ≡ (if result then behind self.old else self.old) }
    {
        if !self.stands_word(keyword) {
            return false;
        }
        self.skip();
        true
    }

    /// Takes the keyword; another token, or the end, is refused.
    pub fn expect_keyword(&mut self, keyword: Keyword) -> Result<(), Refusal>
        ensures taken { IfOk result (λ _. word_at self.old ≡ Some keyword) }
        ensures left { IfOk result (λ _. self.new ≡ behind self.old) }
        ensures refused { IfErr result (λ _. word_at self.old ≢ Some keyword) }
    {
        if self.take_keyword(keyword) {
            Ok(())
        } else {
            Err(self.refused())
        }
    }

    /// Takes a name; another token, or the end, is refused.
    pub fn take_name(&mut self) -> Result<&'a str, Refusal>
        ensures taken { IfOk result (λ name. name_at self.old ≡ Some name.now) }
        ensures left { IfOk result (λ name. self.new ≡ behind self.old) }
        ensures refused { IfErr result (λ _. name_at self.old ≡ None) }
    {
        match self.kind() {
            Some(TokenKind::Name(name)) => {
                self.skip();
                Ok(name.as_str())
            }
            _ => Err(self.refused()),
        }
    }
}

fn is_void(kind: &TokenKind) -> bool
    ensures { result ≡ is_void_kind kind.now }
{
    match kind {
        TokenKind::Word(Keyword::Void) => true,
        _ => false,
    }
}

fn closes(kind: &TokenKind) -> bool
    ensures { result ≡ is_close_kind kind.now }
{
    match kind {
        TokenKind::Mark(Punct::CloseParen) => true,
        _ => false,
    }
}

fn separates(kind: &TokenKind) -> bool
    ensures { result ≡ is_separator_kind kind.now }
{
    match kind {
        TokenKind::Mark(Punct::CloseParen) => true,
        TokenKind::Mark(Punct::Comma) => true,
        _ => false,
    }
}

fn mark_of(kind: &TokenKind) -> Option<Punct>
    ensures { result ≡ kind_mark kind.now }
{
    match kind {
        TokenKind::Mark(mark) => Some(*mark),
        _ => None,
    }
}

fn is_open(kind: &TokenKind) -> bool
    ensures { result ≡ is_open (kind_mark kind.now) }
{
    match kind {
        TokenKind::Mark(Punct::OpenParen) => true,
        _ => false,
    }
}

fn word_of(kind: &TokenKind) -> Option<Keyword>
    ensures { result ≡ kind_word kind.now }
{
    match kind {
        TokenKind::Word(word) => Some(*word),
        _ => None,
    }
}

// The word of a type that stands first.
fn spec_at(tokens: &[Token]) -> Option<SpecWord>
    ensures { result ≡ spec_of tokens.now }
{
    let Some((token, _)) = tokens.split_first() else {
        return None;
    };
    match &token.kind {
        TokenKind::Word(word) => spec_of(*word),
        _ => None,
    }
}

// The word of a type that a keyword is.
fn spec_of(keyword: Keyword) -> Option<SpecWord>
    ensures { result ≡ keyword_spec keyword }
{
    match keyword {
        Keyword::Static => Some(SpecWord::Static),
        Keyword::Void => Some(SpecWord::Void),
        Keyword::Char => Some(SpecWord::Char),
        Keyword::Short => Some(SpecWord::Short),
        Keyword::Int => Some(SpecWord::Int),
        Keyword::Signed => Some(SpecWord::Signed),
        Keyword::Unsigned => Some(SpecWord::Unsigned),
        _ => None,
    }
}
