//! Laws of readings.
ghost use Rattle.std.specs.Prelude.{ℕ, ◌≤◌, ◌≡◌, List, length, All};
ghost use Rattle.word_base.specs.Name.{IsName};
ghost use Rattle.c_syntax.specs.declared.token.Token.{Token};
ghost use Rattle.c_syntax.specs.Lexes.{Lexes, most_tokens};
ghost use Rattle.c_syntax.specs.FunctionNames.{function_names};
ghost use Rattle.c_syntax.specs.SyntaxTree.{Expression, SpecsTree, ItemTree, InitialTree, ParameterTree, ParametersTree, DeclarationTree, Statement, Choices, FunctionSyntax, ExternalTree, UnitTree};
ghost use Rattle.c_syntax.specs.Grammar.{Row, Derives, AreStars};
ghost use Rattle.c_syntax.specs.Measures.{greatest_height, unit_height};
ghost use Rattle.c_syntax.specs.Counts.{IsWithinLimits};
ghost use Rattle.c_syntax.specs.Derives.{Closing, DerivesSpecs, DerivesItem, DerivesInitial, DerivesParameter, DerivesParameters, DerivesDeclaration, DerivesStatement, DerivesChoices, DerivesFunction, DerivesExternal, DerivesUnit};

/// The law of tokens, for every text: it has at most one list of tokens.
pub fn one_token_list()
    ensures { (text : List ℕ) (a b : List Token) → Lexes text a → Lexes text b → a ≡ b }
{}

/// Tokens have at most one tree by each row of the grammar.
pub fn one_tree()
    ensures expression { (row : Row) (tokens : List Token) (a b : Expression) → Derives row tokens a → Derives row tokens b → a ≡ b }
    ensures statement { (tokens : List Token) (c d : Closing) (a b : Statement) → DerivesStatement c tokens a → DerivesStatement d tokens b → a ≡ b }
    ensures declaration { (tokens : List Token) (a b : DeclarationTree) → DerivesDeclaration tokens a → DerivesDeclaration tokens b → a ≡ b }
    ensures specs { (tokens : List Token) (a b : SpecsTree) → DerivesSpecs tokens a → DerivesSpecs tokens b → a ≡ b }
    ensures stars { (tokens : List Token) (a b : ℕ) → AreStars tokens a → AreStars tokens b → a ≡ b }
    ensures item { (tokens : List Token) (a b : ItemTree) → DerivesItem tokens a → DerivesItem tokens b → a ≡ b }
    ensures initial { (tokens : List Token) (a b : InitialTree) → DerivesInitial tokens a → DerivesInitial tokens b → a ≡ b }
    ensures parameter { (tokens : List Token) (a b : ParameterTree) → DerivesParameter tokens a → DerivesParameter tokens b → a ≡ b }
    ensures parameters { (tokens : List Token) (a b : ParametersTree) → DerivesParameters tokens a → DerivesParameters tokens b → a ≡ b }
    ensures choices { (tokens : List Token) (a b : Choices) → DerivesChoices tokens a → DerivesChoices tokens b → a ≡ b }
    ensures function { (tokens : List Token) (a b : FunctionSyntax) → DerivesFunction tokens a → DerivesFunction tokens b → a ≡ b }
    ensures external { (tokens : List Token) (a b : ExternalTree) → DerivesExternal tokens a → DerivesExternal tokens b → a ≡ b }
    ensures unit { (tokens : List Token) (a b : UnitTree) → DerivesUnit tokens a → DerivesUnit tokens b → a ≡ b }
{}

/// A function's name is a name: a letter or `_`, and then letters, digits and `_`, at most 127 in all.
pub fn functions_have_names()
    ensures { (text : List ℕ) (tokens : List Token) (tree : UnitTree) → Lexes text tokens → DerivesUnit tokens tree → All IsName (function_names tree) }
{}

/// A tree of so many tokens as a source may have is within the limits of a source's tree, unless it is too high.
pub fn trees_are_small()
    ensures { (tokens : List Token) (tree : UnitTree) → length tokens ≤ most_tokens → DerivesUnit tokens tree → unit_height tree ≤ greatest_height → IsWithinLimits tree }
{}
