//! Laws of the lexer.
ghost use Rattle.std.specs.Prelude.{◌≡◌, ◌≢◌, ℕ, List, All};
ghost use Rattle.c_syntax.specs.declared.token.Token.{Token};
ghost use Rattle.c_syntax.specs.Lexes.{Lexes};
ghost use Rattle.c_lexer.specs.declared.fault.LexFault.{LexFault};
ghost use Rattle.c_lexer.specs.declared.fault.LexFault.TheVariants.{NoMemory};
ghost use Rattle.c_lexer.specs.LexFaults.{Says};
ghost use Rattle.c_lexer.specs.TokenText.{HasSpelling};

/// A text has at most one fault, and none where it has tokens.
pub fn one_outcome()
    ensures one_fault { (text : List ℕ) (a b : LexFault) → a ≢ NoMemory → b ≢ NoMemory → Says text a → Says text b → a ≡ b }
    ensures no_fault { (text : List ℕ) (tokens : List Token) (fault : LexFault) → fault ≢ NoMemory → Lexes text tokens → Says text fault → ⊥ }
{}

/// Each token of a text has a spelling, so that `token_text` gives it back.
pub fn tokens_have_spellings()
    ensures { (text : List ℕ) (tokens : List Token) → Lexes text tokens → All (λ t. HasSpelling t.kind) tokens }
{}
