//! Names that are reserved for statics.
ghost use Rattle.std.specs.Prelude.{◌≡◌, ◌≤◌, reverse, Some, None, List, ℕ, length, map, All, OnOk, IfErr};
ghost use Rattle.c_units.specs.Statics as names;
ghost use Rattle.c_units.specs.Joining.{reserved_fault};
ghost use Rattle.c_units.specs.Views.{tree_of, AreNames, HasTable};

use crate::fault::UnitFault;
use crate::names::Names;
use crate::tables::NamedFile;
use c_syntax::{Token, TokenKind};

/// The most characters of a static's name.
const LONGEST_STATIC: usize = 120;

// Whether a text ends in `__`.
fn ends_in_underscores(text: &[u8]) -> bool
    ensures { result ≡ names.ends_in_underscores (reverse text.now) }
{
    let Some((last, rest)) = text.split_last() else {
        return false;
    };
    let Some((before, _)) = rest.split_last() else {
        return false;
    };
    *last == b'_' && *before == b'_'
}

// Whether a text ends in `__` and digits, if any.
fn is_numbered(text: &[u8]) -> bool
    ensures { result ≡ names.marked_before_digits (reverse text.now) }
{
    let mut front = text;
    while let Some((last, rest)) = front.split_last() {
        if !last.is_ascii_digit() {
            return ends_in_underscores(front);
        }
        front = rest;
    }
    false
}

// Whether a name ends in `__` and digits, at least one.
fn ends_in_number(name: &str) -> bool
    ensures { result ≡ names.ends_in_number name.now }
{
    match name.as_bytes().split_last() {
        Some((last, front)) => last.is_ascii_digit() && is_numbered(front),
        None => false,
    }
}

// Whether a token is a name that is reserved in a file with these statics.
fn is_reserved(statics: &Names<'_>, kind: &TokenKind) -> bool
    ensures { (list : List (List ℕ)) → AreNames statics.now list → result ≡ names.is_reserved_kind list kind.now }
{
    match kind {
        TokenKind::Name(name) => {
            let name = name.as_str();
            ends_in_number(name) || (name.len() > LONGEST_STATIC && statics.contains(name))
        }
        TokenKind::Word(_) | TokenKind::Number { .. } | TokenKind::Char(_) | TokenKind::Mark(_) => {
            false
        }
    }
}

// The place of the first such name among tokens, in bytes.
fn reserved_at(statics: &Names<'_>, tokens: &[Token]) -> Option<u32>
    ensures { (list : List (List ℕ)) → AreNames statics.now list → result ≡ names.reserved_at list tokens.now }
{
    for token in tokens {
        if is_reserved(statics, &token.kind) {
            return Some(token.at);
        }
    }
    None
}

// The place of the first reserved name of a file, in bytes.
fn reserved_in(named: &NamedFile<'_>) -> Option<u32>
    requires table { HasTable named.now }
    ensures { result ≡ names.reserved_at (names.statics_of (tree_of named.now).unit) (tree_of named.now).tokens }
{
    reserved_at(&named.statics, &named.file.tokens)
}

/// Refuses the first reserved name of the files, at most sixteen.
pub(crate) fn check_reserved(files: &[NamedFile<'_>]) -> Result<(), UnitFault>
    requires few { length files.now ≤ 16 }
    requires tables { All HasTable files.now }
    ensures none { OnOk result (reserved_fault 1 (map tree_of files.now) ≡ None) }
    ensures fault { IfErr result (λ fault. reserved_fault 1 (map tree_of files.now) ≡ Some fault) }
{
    let mut file = 0;
    for source in files {
        file += 1;
        if let Some(at) = reserved_in(source) {
            return Err(UnitFault::Reserved { file, at });
        }
    }
    Ok(())
}
