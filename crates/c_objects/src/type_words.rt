//! The words of types, and what the text of an expression alone says: ISO 9899:1990 6.5.2 and 6.2.2.3.
ghost use Rattle.c_rules.specs.Answers.{Follows};
ghost use Rattle.std.specs.Prelude.{◌≡◌, count_by, nat_lt};
ghost use Rattle.c_syntax.specs.SyntaxView.{expression_of, specs_of, type_of};
ghost use Rattle.c_rules.specs.Typing as rules;

use c_conversions::starred;
use c_rules::{Refusal, Rule};
use c_syntax::{Expr, ExprKind, SpecWord, Specs, TypeName};
use c_tree::{Base, ScalarType};

fn same_word(a: SpecWord, b: SpecWord) -> bool
    ensures { result ≡ rules.same_word a b }
{
    matches!(
        (a, b),
        (SpecWord::Static, SpecWord::Static)
            | (SpecWord::Void, SpecWord::Void)
            | (SpecWord::Char, SpecWord::Char)
            | (SpecWord::Short, SpecWord::Short)
            | (SpecWord::Int, SpecWord::Int)
            | (SpecWord::Signed, SpecWord::Signed)
            | (SpecWord::Unsigned, SpecWord::Unsigned)
    )
}

/// Whether a word stands among those of a type.
pub(crate) fn has(word: SpecWord, words: &[SpecWord]) -> bool
    ensures { result ≡ rules.has word words.now }
{
    words.iter().any(|w| same_word(word, *w))
}

// Whether a word stands there more than once.
fn stands_twice(word: SpecWord, words: &[SpecWord]) -> bool
    ensures { result ≡ nat_lt 1 (count_by (rules.same_word word) words.now) }
{
    words.iter().filter(|w| same_word(word, **w)).count() > 1
}

// Whether some word stands again behind itself. Each kind of word is counted once, so a long list costs no more than its
// length.
fn repeats(words: &[SpecWord]) -> bool
    ensures { result ≡ rules.repeats words.now }
{
    stands_twice(SpecWord::Static, words)
        || stands_twice(SpecWord::Void, words)
        || stands_twice(SpecWord::Char, words)
        || stands_twice(SpecWord::Short, words)
        || stands_twice(SpecWord::Int, words)
        || stands_twice(SpecWord::Signed, words)
        || stands_twice(SpecWord::Unsigned, words)
}

// Whether two words stand there of which a type has one at most.
fn clash(words: &[SpecWord]) -> bool
    ensures { result ≡ rules.clash words.now }
{
    let has_char = has(SpecWord::Char, words);
    let has_short_or_int = has(SpecWord::Short, words) || has(SpecWord::Int, words);
    let has_signed = has(SpecWord::Signed, words);
    let has_unsigned = has(SpecWord::Unsigned, words);
    has(SpecWord::Void, words) && (has_char || has_short_or_int || has_signed || has_unsigned)
        || has_char && has_short_or_int
        || has_signed && has_unsigned
}

fn names_type(words: &[SpecWord]) -> bool
    ensures { result ≡ rules.names_type words.now }
{
    has(SpecWord::Void, words)
        || has(SpecWord::Char, words)
        || has(SpecWord::Short, words)
        || has(SpecWord::Int, words)
        || has(SpecWord::Signed, words)
        || has(SpecWord::Unsigned, words)
}

/// Whether the words are a spelling of a type, in any order, with `static` once or not at all.
pub(crate) fn is_spelling(words: &[SpecWord]) -> bool
    ensures { result ≡ rules.is_spelling words.now }
{
    names_type(words) && !clash(words) && !repeats(words)
}

// The base of a type that these words spell.
fn base_of(words: &[SpecWord]) -> Base
    ensures { result ≡ rules.base_of words.now }
{
    if has(SpecWord::Void, words) {
        Base::Void
    } else if has(SpecWord::Unsigned, words) {
        Base::Unsigned
    } else {
        Base::Int
    }
}

/// The base of a type that is spelled.
pub fn spelled(specs: &Specs) -> Result<Base, Refusal>
    ensures { Follows (λ base. base) (rules.spelled (specs_of specs.now)) result }
{
    let words = specs.words.as_slice();
    if !is_spelling(words) {
        return Err(Refusal::Broken {
            rule: Rule::Mismatch,
            at: specs.at,
        });
    }
    Ok(base_of(words))
}

/// The base of a type in which `static` has no place.
pub fn plain(specs: &Specs) -> Result<Base, Refusal>
    ensures { Follows (λ base. base) (rules.plain (specs_of specs.now)) result }
{
    let base = spelled(specs)?;
    if has(SpecWord::Static, specs.words.as_slice()) {
        return Err(Refusal::Broken {
            rule: Rule::Misplaced,
            at: specs.at,
        });
    }
    Ok(base)
}

/// The type that a cast or `sizeof` names.
pub fn type_named(named: &TypeName) -> Result<Option<ScalarType>, Refusal>
    ensures { Follows (λ kind. kind) (rules.type_named (type_of named.now)) result }
{
    let base = plain(&named.specs)?;
    Ok(starred(base, named.stars))
}

/// Whether the text of an expression is a number of value 0.
pub(crate) fn is_zero(e: &Expr) -> bool
    ensures { result ≡ rules.is_zero (expression_of e.now) }
{
    match &e.kind {
        ExprKind::Number { value, .. } => *value == 0,
        _ => false,
    }
}

/// Whether it is that of a null pointer: a number of value 0, or one that is cast to a void pointer.
pub fn is_null(e: &Expr) -> bool
    ensures { result ≡ rules.is_null (expression_of e.now) }
{
    match &e.kind {
        ExprKind::Cast { to, operand } => {
            is_zero(operand) && has(SpecWord::Void, to.specs.words.as_slice()) && to.stars == 1
        }
        _ => is_zero(e),
    }
}
