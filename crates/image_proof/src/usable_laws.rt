//! Laws of selected items. The call does nothing: its clauses are what crates above cite.
ghost use Rattle.std.specs.Prelude.{ℕ, ◌≡◌, slice_get, Some};
ghost use Rattle.c_tree.specs.TypedTree.{ProgramTree};
ghost use Rattle.c_tree.specs.WellFormedProgram.{IsProgram};
ghost use Rattle.tree_code.specs.Lowered.{lowered_program};
ghost use Rattle.c_tree.specs.TypedOfWords.{ProgramHasWords};
ghost use Rattle.acc_code.specs.AccTree.{FunctionItems};
ghost use Rattle.acc_code.specs.Emittable.{Throughout};
ghost use Rattle.acc_select.specs.Selected.{selected};
ghost use Rattle.image_proof.specs.Usable.{IsUsableItem};

/// Each item of a typed program of words may be used as it is, at whatever depth: numbers and values of cases are words, and numbers of scratch words
/// have 8 bits.
pub fn selected_is_usable()
    ensures usable { (p : ProgramTree) (f : ℕ) (g : FunctionItems) → IsProgram p → ProgramHasWords p → slice_get (selected (lowered_program p)) f ≡ Some g → Throughout IsUsableItem g.body }
{}
