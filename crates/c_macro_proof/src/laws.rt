//! The law of sources without directives.
ghost use Rattle.std.specs.Prelude.{◌≢◌, ℕ, List, All};
ghost use Rattle.c_renaming.specs.c_tree.c_syntax.declared.token.Token.{Token};
ghost use Rattle.c_renaming.specs.c_tree.c_syntax.Lexes.{Lexes};
ghost use Rattle.c_renaming.specs.c_tree.TypedTree.{ProgramTree};
ghost use Rattle.c_macro.specs.c_lexer.TokenText.{tokens_text};
ghost use Rattle.c_macro.specs.Expands.{Expands};
ghost use Rattle.c_macro_proof.specs.Sources.{HasProgram, HasMoved};

use c_macro::plain_source_expands;

/// A source without `#` that has tokens expands to these (`expands`), and their text has the program of the source, and no
/// other, but for places (`kept`, `had`).
pub fn plain_sources_keep_their_programs()
    ensures expands { (text : List ℕ) (tokens : List Token) → All (λ c. c ≢ 35) text → Lexes text tokens → Expands text tokens }
    ensures kept { (text : List ℕ) (tokens : List Token) (program : ProgramTree)
        → Lexes text tokens → HasProgram text program → HasMoved (tokens_text tokens) program }
    ensures had { (text : List ℕ) (tokens : List Token) (program : ProgramTree)
        → Lexes text tokens → HasProgram (tokens_text tokens) program → HasMoved text program }
{
    plain_source_expands();
}
