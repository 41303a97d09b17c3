//! The laws of renaming. The calls do nothing: their clauses say what was proved, and crates above cite the lemmas.
ghost use Rattle.std.specs.Prelude.{List};
ghost use Rattle.c_tree.specs.c_syntax.declared.token.Token.{Token};
ghost use Rattle.c_tree.specs.c_syntax.SyntaxTree.{UnitTree};
ghost use Rattle.c_tree.specs.c_syntax.Source.{IsSource};
ghost use Rattle.c_tree.specs.TypedTree.{ProgramTree};
ghost use Rattle.c_rules.specs.Checked.{IsTyped};
ghost use Rattle.c_renaming.specs.Renaming.{Renaming, IsFaithful};
ghost use Rattle.c_renaming.specs.RenamedTokens.{AreRenamed};
ghost use Rattle.c_renaming.specs.RenamedTrees.{renamed_unit};
ghost use Rattle.c_renaming.specs.RenamedPrograms.{renamed_program};

/// Tokens with other names and places have the same tree but for these.
pub fn renamed_tokens_derive()
    ensures { (r : Renaming) (tokens others : List Token) (unit : UnitTree)
        → AreRenamed r tokens others → IsSource tokens unit → IsSource others (renamed_unit r unit) }
{}

/// A tree with other names and places has the same typed program but for these.
pub fn renamed_trees_are_typed()
    ensures { (r : Renaming) (unit : UnitTree) (program : ProgramTree)
        → IsFaithful r → IsTyped unit program → IsTyped (renamed_unit r unit) (renamed_program r program) }
{}
