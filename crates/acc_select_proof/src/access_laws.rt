//! Laws of accesses. The call does nothing: its clauses are what crates above cite.
ghost use Rattle.std.specs.Prelude.{◌≡◌, ℕ, map};
ghost use Rattle.c_tree.specs.TypedTree.{FunctionTree, ProgramTree};
ghost use Rattle.c_tree.specs.WellFormedProgram.{IsProgram};
ghost use Rattle.tree_code.specs.Lowered.{lowered_function, lowered_program};
ghost use Rattle.tree_code.specs.WellFormedCode.{IsFunctionCode};
ghost use Rattle.tree_code.specs.WordTree.{FunctionCode, ProgramCode};
ghost use Rattle.acc_code.specs.AccSequence.{blocks_of};
ghost use Rattle.acc_select.specs.Selected.{selected, selected_function};
ghost use Rattle.acc_select_proof.specs.SourceAccesses.{function_blocks};
ghost use Rattle.acc_select_proof.specs.SourceSequences.{at_step, source_sequence};
ghost use Rattle.acc_select_proof.specs.TreeAccesses.{word_function_blocks};

/// A function makes the same accesses in each of its forms: as a typed tree, as a word tree, and as accumulator code.
pub fn accesses_are_kept()
    ensures lowered { (f : FunctionTree) → word_function_blocks (lowered_function f) ≡ function_blocks f }
    ensures selected { (p : ProgramCode) (f : FunctionCode) → IsFunctionCode p f → blocks_of (selected_function f).body ≡ word_function_blocks f }
    // So the sequences for which a program's frames are laid out are those of its functions, in order.
    ensures sequences { (step : ℕ) (p : ProgramTree) → ∥ IsProgram p ∥₁ → map (at_step step) (selected (lowered_program p)) ≡ map (source_sequence step) p.functions }
{}
