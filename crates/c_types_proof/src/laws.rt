//! The laws of whole programs. The calls do nothing: their clauses are what crates above cite.
ghost use Rattle.std.specs.Prelude.{All, List, ℕ};
ghost use Rattle.c_syntax.specs.declared.token.Token.{Token};
ghost use Rattle.c_syntax.specs.Derives.{DerivesUnit};
ghost use Rattle.c_syntax.specs.Lexes.{Lexes};
ghost use Rattle.c_syntax.specs.SyntaxTree.{UnitTree};
ghost use Rattle.c_tree.specs.TypedTree.{ProgramTree};
ghost use Rattle.c_tree.specs.WellFormedProgram.{IsProgram};
ghost use Rattle.c_rules.specs.Checked.{IsTyped};
ghost use Rattle.c_tree.specs.TypedOfWords.{ProgramHasWords};
ghost use Rattle.c_syntax.specs.Characters.{UnitSaysWords};
ghost use Rattle.c_tree.specs.Declarations.{DeclaredOnce, DeclaredInOrder};
ghost use Rattle.c_tree.specs.Fills.{FilledOnce, FilledWhereDeclared, FilledBeforeUse, FilledAsListed, FilledIfListed};
ghost use Rattle.c_tree.specs.Placed.{FunctionIsPlaced};
ghost use Rattle.c_tree.specs.Scopes.{UsedWhereDeclared};
ghost use Rattle.c_syntax.specs.Values.{UnitHasValues};

/// In the typed program of a source each object of a function is declared in one place. It is filled with its list in at most one, by a statement of
/// the block that declares it, in front of which no other one of that block names it. An object with a list is filled; where the source has no empty
/// braces, one without a list isn't.
pub fn typed_programs_are_whole()
    ensures declared { (unit : UnitTree) (program : ProgramTree) → IsTyped unit program → All DeclaredOnce program.functions }
    ensures ordered { (unit : UnitTree) (program : ProgramTree) → IsTyped unit program → All DeclaredInOrder program.functions }
    ensures filled { (unit : UnitTree) (program : ProgramTree) → IsTyped unit program → All FilledOnce program.functions }
    ensures placed { (unit : UnitTree) (program : ProgramTree) → IsTyped unit program → All FilledWhereDeclared program.functions }
    ensures before_use { (unit : UnitTree) (program : ProgramTree) → IsTyped unit program → All FilledBeforeUse program.functions }
    ensures listed { (unit : UnitTree) (program : ProgramTree) → IsTyped unit program → All FilledIfListed program.functions }
    ensures exact { (unit : UnitTree) (program : ProgramTree) → UnitHasValues unit → IsTyped unit program → All FilledAsListed program.functions }
{}

/// In the typed program of a source whose braces hold values, the objects of each function stand where the source has them.
pub fn typed_programs_are_placed()
    ensures { (unit : UnitTree) (program : ProgramTree) → UnitHasValues unit → IsProgram program → IsTyped unit program → All FunctionIsPlaced program.functions }
{}

/// In the tree of tokens braces hold a value.
pub fn sources_have_values()
    ensures { (tokens : List Token) (unit : UnitTree) → DerivesUnit tokens unit → UnitHasValues unit }
{}

/// In a well-formed program each object of a function is used within the block that declares it, and a parameter in the body.
pub fn objects_are_used_where_declared()
    ensures { (program : ProgramTree) → IsProgram program → All UsedWhereDeclared program.functions }
{}

/// The character constants of a text are words. Of those in the lengths of arrays nothing is said.
pub fn sources_say_words()
    ensures { (bytes : List ℕ) (tokens : List Token) (unit : UnitTree) → Lexes bytes tokens → DerivesUnit tokens unit → UnitSaysWords unit }
{}

/// The typed program of a source is of words: each constant, each value of a case, and each word that an object starts with. The rules of types see to
/// that in all that they compute, and refuse longer numbers, so of a tree it asks only that its character constants are words (`trees`), as those of a
/// text are (`texts`).
pub fn typed_programs_are_of_words()
    ensures trees { (unit : UnitTree) (program : ProgramTree) → UnitSaysWords unit → IsTyped unit program → ProgramHasWords program }
    ensures texts { (bytes : List ℕ) (tokens : List Token) (unit : UnitTree) (program : ProgramTree) → Lexes bytes tokens → DerivesUnit tokens unit
        → IsTyped unit program → ProgramHasWords program }
{}
