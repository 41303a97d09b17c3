//! The laws of lowering.
ghost use Rattle.std.specs.Prelude.{◌≡◌};
ghost use Rattle.c_tree.specs.TypedTree.{Expr, Stmt, Choices};
ghost use Rattle.c_tree.specs.Labels.{repeats_label};
ghost use Rattle.c_tree.specs.Temporaries.{temporaries, statement_temporaries};
ghost use Rattle.c_tree.specs.Uses.{uses, statement_uses};
ghost use Rattle.tree_code.specs.Lowered.{lowered, lowered_statement, lowered_choices};
ghost use Rattle.tree_code.specs.WordLabels.{repeats_word_label};
ghost use Rattle.tree_code.specs.WordTemporaries.{word_temporaries, word_statement_temporaries};
ghost use Rattle.tree_code.specs.WordUses.{word_uses, word_statement_uses};

/// A word tree uses what its source uses, needs as many temporaries, and repeats a label where its source does.
pub fn kept_by_lowering()
    ensures uses { (e : Expr) → word_uses (lowered e) ≡ uses e }
    ensures statement_uses { (s : Stmt) → word_statement_uses (lowered_statement s) ≡ statement_uses s }
    ensures temporaries { (e : Expr) → word_temporaries (lowered e) ≡ temporaries e }
    ensures statement_temporaries { (s : Stmt) → word_statement_temporaries (lowered_statement s) ≡ statement_temporaries s }
    ensures labels { (cs : Choices) → repeats_word_label (lowered_choices cs) ≡ repeats_label cs }
{}
