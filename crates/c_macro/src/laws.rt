//! Laws of expansion.
ghost use Rattle.std.specs.Prelude.{◌≡◌, ◌≢◌, ◌≤◌, ℕ, List, Result, All, length};
ghost use Rattle.c_syntax.specs.declared.token.Token.{Token};
ghost use Rattle.c_syntax.specs.Lexes.{Lexes, most_tokens};
ghost use Rattle.c_lexer.specs.TokenText.{HasSpelling};
ghost use Rattle.c_macro.specs.Expands.{Expands, Outcome};
ghost use Rattle.c_macro.specs.declared.fault.MacroFault.{MacroFault};

/// A source expands to one list of tokens at most, or has one first fault.
pub fn one_outcome()
    ensures { (text : List ℕ) (a b : Result (List Token) MacroFault) → Outcome text a → Outcome text b → a ≡ b }
{}

/// A source without `#` expands to its own tokens.
pub fn plain_source_expands()
    ensures { (text : List ℕ) (tokens : List Token) → All (λ c. c ≢ 35) text → Lexes text tokens → Expands text tokens }
{}

/// Each token that a source expands to has a spelling, and they are not too many, so that `token_text` gives their kinds
/// back.
pub fn expansions_have_spellings()
    ensures spelled { (text : List ℕ) (tokens : List Token) → Expands text tokens → All (λ t. HasSpelling t.kind) tokens }
    ensures few { (text : List ℕ) (tokens : List Token) → Expands text tokens → length tokens ≤ most_tokens }
{}
