//! The words of directives.
ghost use Rattle.std.specs.Prelude.{◌≡◌};
ghost use Rattle.c_macro.specs.Directives as directives;

/// What a directive asks for.
#[derive(Clone, Copy, Debug, PartialEq, Eq)]
pub(crate) enum Verb {
    /// `#` has no word.
    Alone,
    Pragma,
    Define,
    Undef,
    Ifdef,
    Ifndef,
    If,
    Elif,
    Else,
    Endif,
    /// Any other word.
    Unknown,
}

/// What the word of a directive asks for.
pub(crate) fn verb_of(word: &[u8]) -> Verb
    ensures { result ≡ directives.verb_of word.now }
{
    match word {
        b"" => Verb::Alone,
        b"pragma" => Verb::Pragma,
        b"define" => Verb::Define,
        b"undef" => Verb::Undef,
        b"ifdef" => Verb::Ifdef,
        b"ifndef" => Verb::Ifndef,
        b"if" => Verb::If,
        b"else" => Verb::Else,
        b"elif" => Verb::Elif,
        b"endif" => Verb::Endif,
        _ => Verb::Unknown,
    }
}
