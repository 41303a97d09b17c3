//! Laws of selection. Each call does nothing: its clauses are what crates above cite.
ghost use Rattle.std.specs.Prelude.{ℕ};
ghost use Rattle.word_base.specs.Ports.{Input, IsInput};
ghost use Rattle.c_tree.specs.TypedTree.{ProgramTree};
ghost use Rattle.c_tree.specs.WellFormedProgram.{IsProgram};
ghost use Rattle.tree_code.specs.Lowered.{lowered_program};
ghost use Rattle.tree_code.specs.WordTree.{ProgramCode};
ghost use Rattle.acc_select.specs.Selected.{selected};
ghost use Rattle.ir_semantics.specs.Keeps.{Keeps, acc_run, tree_run};
ghost use Rattle.ir_semantics.specs.Outside.{Places, address_of};
ghost use Rattle.acc_select_proof.specs.Selecting.{AreFar, IsWordProgram};
ghost use Rattle.c_tree.specs.TypedOfWords.{ProgramHasWords};

/// What the accumulator code of a word tree does is what the tree does, for objects at any places: the same outputs and
/// ending with at most as much work, a run that goes on goes on, and where the tree is undefined the outputs before are kept.
pub fn selection_keeps_runs()
    ensures keeps { (q : Places) (p : ProgramCode) (input : Input) (n : ℕ) → IsWordProgram q p → IsInput input → Keeps (tree_run q p input n) (acc_run q p (selected p) input n) }
{}

/// The word tree of a typed program of words meets the condition, so selection keeps its runs.
pub fn typed_programs_keep()
    ensures of_words { (q : Places) (p : ProgramTree) → IsProgram p → ProgramHasWords p → ((f : ℕ) → AreFar (address_of q f)) → IsWordProgram q (lowered_program p) }
    ensures keeps { (q : Places) (p : ProgramTree) (input : Input) (n : ℕ) → IsProgram p → ProgramHasWords p → ((f : ℕ) → AreFar (address_of q f)) → IsInput input → Keeps (tree_run q (lowered_program p) input n) (acc_run q (lowered_program p) (selected (lowered_program p)) input n) }
{}
