//! The tokens of several files in one list, and their text.
ghost use Rattle.std.specs.Prelude.{◌≡◌, ◌≢◌, ◌≤◌, ◌<◌, ◌^◌, ◌++◌, Some, None, List, ℕ, length, map, All, IfOk, OnOk, IfErr, MatchResult};
ghost use Rattle.c_tree.specs.c_syntax.declared.token.Token.{Token};
ghost use Rattle.c_tree.specs.c_syntax.Lexes.{Lexes, most_tokens};
ghost use Rattle.c_lexer.specs.TokenText.{spelled, tokens_text};
ghost use Rattle.c_renaming.specs.RenamedTokens.{renamed_kind};
ghost use Rattle.c_units.specs.declared.fault.UnitFault.{UnitFault};
ghost use Rattle.c_units.specs.declared.fault.UnitFault.TheVariants as faults;
ghost use Rattle.c_units.specs.Joining.{kinds_text, joined_kinds, file_kinds, renaming_of, Joins, IsJoined, HasFault, IsSameFault, joint_fault, count_fault};
ghost use Rattle.c_units.specs.Statics.{static_name, statics_of};
ghost use Rattle.c_units.specs.Files.{FileTree};
ghost use Rattle.c_units.specs.Views.{tree_of, AreNames, HasTable};

use crate::fault::UnitFault;
use crate::files::read_files;
use crate::names::Names;
use crate::objects::check_defined;
use crate::reserved::check_reserved;
use crate::statics::static_name;
use crate::tables::{NamedFile, with_statics};
use c_lexer::{lex, push_token_text};
use c_syntax::{MOST_TOKENS, Token, TokenKind};
use std::alloc::Global;
use word_base::NoMemory;

// Refuses more tokens than a text may have.
fn check_count(files: &[NamedFile<'_>]) -> Result<(), UnitFault>
    requires few { length files.now ≤ 16 }
    requires short { All (λ f. length (tree_of f).tokens ≤ most_tokens) files.now }
    ensures none { OnOk result (count_fault (map tree_of files.now) ≡ None) }
    ensures fault { IfErr result (λ fault. count_fault (map tree_of files.now) ≡ Some fault) }
{
    let mut count = 0;
    for named in files {
        count += named.file.tokens.len() as u64;
    }
    if count > MOST_TOKENS as u64 {
        return Err(UnitFault::TooManyTokens { count });
    }
    Ok(())
}

// Adds the text of a token of a file with these statics.
fn push_token(
    alloc: Global,
    number: u8,
    statics: &Names<'_>,
    kind: &TokenKind,
    text: &mut Vec<u8>,
) -> Result<(), NoMemory>
    ensures { OnOk result ((file : FileTree) → AreNames statics.now (statics_of file.unit)
        → text.new.items ≡ text.old.items ++ spelled (renamed_kind (renaming_of static_name number file) kind.now)) }
{
    match kind {
        TokenKind::Name(name) if statics.contains(name.as_str()) => {
            let name = static_name(alloc, number, name.as_str())?;
            push_token_text(text, &TokenKind::Name(name))
        }
        kind => push_token_text(text, kind),
    }
}

// Adds the text of tokens of such a file.
fn push_tokens(
    alloc: Global,
    number: u8,
    statics: &Names<'_>,
    tokens: &[Token],
    text: &mut Vec<u8>,
) -> Result<(), NoMemory>
    ensures { OnOk result ((file : FileTree) → AreNames statics.now (statics_of file.unit)
        → text.new.items ≡ text.old.items ++ kinds_text (map (λ t. renamed_kind (renaming_of static_name number file) t.kind) tokens.now)) }
{
    for token in tokens {
        push_token(alloc, number, statics, &token.kind, text)?;
    }
    Ok(())
}

// Adds the text of the file of this number.
fn push_file(
    alloc: Global,
    number: u8,
    named: &NamedFile<'_>,
    text: &mut Vec<u8>,
) -> Result<(), NoMemory>
    requires table { HasTable named.now }
    ensures { OnOk result (text.new.items ≡ text.old.items ++ kinds_text (file_kinds static_name number (tree_of named.now))) }
{
    push_tokens(alloc, number, &named.statics, &named.file.tokens, text)
}

// The text of the files in order.
fn joined(alloc: Global, files: &[NamedFile<'_>]) -> Result<Vec<u8>, NoMemory>
    requires few { length files.now ≤ 16 }
    requires tables { All HasTable files.now }
    ensures { IfOk result (λ text. text.items ≡ kinds_text (joined_kinds static_name 1 (map tree_of files.now))) }
{
    let mut text = Vec::new(alloc);
    let mut number = 0;
    for named in files {
        number += 1;
        push_file(alloc, number, named, &mut text)?;
    }
    Ok(text)
}

// Refuses the first fault that no file has by itself.
fn check_all(alloc: Global, files: &[NamedFile<'_>]) -> Result<(), UnitFault>
    requires few { length files.now ≤ 16 }
    requires short { All (λ f. length (tree_of f).tokens ≤ most_tokens) files.now }
    requires tables { All HasTable files.now }
    ensures none { OnOk result (joint_fault (map tree_of files.now) ≡ None) }
    ensures fault { IfErr result (λ fault. fault ≢ faults.NoMemory → joint_fault (map tree_of files.now) ≡ Some fault) }
{
    check_reserved(files)?;
    check_defined(alloc, files)?;
    check_count(files)
}

// The text of the files, joined, or their first fault.
fn first_text(alloc: Global, sources: &[Vec<u8>]) -> Result<Vec<u8>, UnitFault>
    requires few { length sources.now ≤ 16 }
    requires short { All (λ s. length s.items < 2 ^ 32) sources.now }
    ensures text { IfOk result (λ text. IsJoined (map (λ s. s.items) sources.now) text.items) }
    ensures fault { IfErr result (λ fault. fault ≢ faults.NoMemory → HasFault (map (λ s. s.items) sources.now) fault) }
{
    let files = read_files(alloc, sources)?;
    let named = with_statics(alloc, &files)?;
    check_all(alloc, &named)?;
    Ok(joined(alloc, &named)?)
}

// The tokens of a text that has some.
fn tokens_of(alloc: Global, text: &[u8]) -> Result<Vec<Token>, NoMemory>
    requires short { length text.now < 2 ^ 32 }
    ensures { IfOk result (λ tokens. Lexes text.now tokens.items) }
{
    match lex(alloc, text) {
        Ok(tokens) => Ok(tokens),
        // Only memory can be wanting.
        Err(_) => Err(NoMemory),
    }
}

// The tokens of the files, joined, or their first fault.
fn first_tokens(alloc: Global, sources: &[Vec<u8>]) -> Result<Vec<Token>, UnitFault>
    requires few { length sources.now ≤ 16 }
    requires short { All (λ s. length s.items < 2 ^ 32) sources.now }
    ensures tokens { IfOk result (λ tokens. Joins (map (λ s. s.items) sources.now) tokens.items) }
    ensures fault { IfErr result (λ fault. fault ≢ faults.NoMemory → HasFault (map (λ s. s.items) sources.now) fault) }
{
    let text = first_text(alloc, sources)?;
    Ok(tokens_of(alloc, &text)?)
}

/// The text of the tokens of files, from one to sixteen, of less than 2^32 bytes each: those of each file in order, without
/// each `extern` at the start of an external, and with the name of a static followed by `__` and the number of its file.
/// It is what `c_lexer::token_text` gives of the tokens that `join_units` answers.
///
/// A refusal names the first fault, in the order of `UnitFault`'s kinds but for the first three, of which each file is
/// tried for all before the next file is (docs/LANGUAGE.md, "Programs of several files"; ISO 9899:1990 6.1.2.2).
pub fn join_text(alloc: Global, sources: &[Vec<u8>]) -> Result<Vec<u8>, UnitFault>
    requires some { 1 ≤ length sources.now }
    requires few { length sources.now ≤ 16 }
    requires short { All (λ s. length s.items < 2 ^ 32) sources.now }
    // What is answered is the text of the files' tokens, joined, and it has these tokens.
    ensures text { IfOk result (λ text. IsJoined (map (λ s. s.items) sources.now) text.items) }
    // Where the files can be joined their text is answered, unless memory is wanting.
    ensures joined { (tokens : List Token) → Joins (map (λ s. s.items) sources.now) tokens
        → MatchResult result (λ text. text.items ≡ tokens_text tokens) (λ fault. fault ≡ faults.NoMemory) }
    // Each fault has its cause.
    ensures fault { IfErr result (λ fault. fault ≢ faults.NoMemory → HasFault (map (λ s. s.items) sources.now) fault) }
    // Where there is a cause its fault is answered, unless memory is wanting.
    ensures faulty { (cause : UnitFault) → HasFault (map (λ s. s.items) sources.now) cause
        → MatchResult result (λ text. ⊥) (λ fault. fault ≢ faults.NoMemory → IsSameFault cause fault) }
{
    first_text(alloc, sources)
}

/// The tokens of files, from one to sixteen, of less than 2^32 bytes each, in one list: those of each file in order,
/// without each `extern` at the start of an external, and with the name of a static followed by `__` and the number of
/// its file. They have the places and lengths of the text that `join_text` gives of the files, in bytes.
///
/// The refusals are those of `join_text`.
pub fn join_units(alloc: Global, sources: &[Vec<u8>]) -> Result<Vec<Token>, UnitFault>
    requires some { 1 ≤ length sources.now }
    requires few { length sources.now ≤ 16 }
    requires short { All (λ s. length s.items < 2 ^ 32) sources.now }
    // What is answered are the tokens of the files, joined.
    ensures tokens { IfOk result (λ tokens. Joins (map (λ s. s.items) sources.now) tokens.items) }
    // They are those of their text.
    ensures lexes { IfOk result (λ tokens. Lexes (tokens_text tokens.items) tokens.items) }
    // Where the files can be joined their tokens are answered, unless memory is wanting.
    ensures joined { (tokens : List Token) → Joins (map (λ s. s.items) sources.now) tokens
        → MatchResult result (λ found. found.items ≡ tokens) (λ fault. fault ≡ faults.NoMemory) }
    // Each fault has its cause.
    ensures fault { IfErr result (λ fault. fault ≢ faults.NoMemory → HasFault (map (λ s. s.items) sources.now) fault) }
    // Where there is a cause its fault is answered, unless memory is wanting.
    ensures faulty { (cause : UnitFault) → HasFault (map (λ s. s.items) sources.now) cause
        → MatchResult result (λ found. ⊥) (λ fault. fault ≢ faults.NoMemory → IsSameFault cause fault) }
{
    first_tokens(alloc, sources)
}
