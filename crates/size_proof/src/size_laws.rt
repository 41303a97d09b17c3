//! Laws of words. The call does nothing: its clauses are what crates above cite.
ghost use Rattle.std.specs.Prelude.{◌≡◌, ◌≤◌, ◌+◌, ◌++◌, ℕ, Bool, List, Option};
ghost use Rattle.c_tree.specs.declared.program.VarRef.{VarRef};
ghost use Rattle.c_tree.specs.TypedTree.{ObjectTree, ProgramTree};
ghost use Rattle.c_tree.specs.WellFormedProgram.{IsProgram};
ghost use Rattle.tree_code.specs.Lowered.{lowered_program};
ghost use Rattle.tree_code.specs.WordTree.{ProgramCode};
ghost use Rattle.c25_isa.specs.Pieces.{Piece, items_size};
ghost use Rattle.c25_helper.specs.Calls.{called_helper_pieces};
ghost use Rattle.c25_link.specs.Linking.{pieces_words};
ghost use Rattle.acc_code.specs.AccTree.{FunctionItems};
ghost use Rattle.acc_code.specs.Emittable.{IsEmittableBody};
ghost use Rattle.acc_select.specs.IsSelected.{IsEmittable};
ghost use Rattle.acc_select.specs.Selected.{selected};
ghost use Rattle.ir_semantics.specs.SourceWeights.{source_weight};
ghost use Rattle.ir_semantics.specs.Weights.{code_weight, function_items_weight, statics_weight};
ghost use Rattle.mem_plan.specs.declared.data_plan.DataPlan.{DataPlan};
ghost use Rattle.frame_emit.specs.emit_control.Cuts.{function_items};
ghost use Rattle.frame_emit.specs.emit_control.Settings.{Setting};
ghost use Rattle.frame_emit.specs.Emitted.{emitted};
ghost use Rattle.frame_emit.specs.Startup.{startup_piece};
ghost use Rattle.size_proof.specs.Sizes.{ROUTINE_WORDS, STARTUP_WORDS};

/// Code has at most as many words as it weighs, wherever its words of data memory lie and whatever its functions are called; the startup and the
/// routines have at most so many more.
pub fn code_fits_its_weight()
    ensures function { (m : Setting) (scalars : ℕ) (cells : VarRef → Option ℕ) (parameters : ℕ → Option ℕ) (helps : Bool) (g : FunctionItems)
        → IsEmittableBody scalars cells parameters helps g.body → items_size (function_items m g.body) ≤ function_items_weight g }
    ensures startup { (places : List ℕ) (statics : List ObjectTree) → items_size (startup_piece places statics).items ≤ STARTUP_WORDS + statics_weight statics }
    ensures pieces { (p : ProgramCode) (gs : List FunctionItems) (plan : DataPlan) (arrangements : List (List (List ℕ))) (step : ℕ) → IsEmittable p gs
        → pieces_words (emitted p gs plan arrangements step) ≤ STARTUP_WORDS + code_weight p.statics gs }
    ensures routines { (pieces : List Piece) → pieces_words (called_helper_pieces pieces) ≤ ROUTINE_WORDS }
    ensures linked { (p : ProgramCode) (gs : List FunctionItems) (plan : DataPlan) (arrangements : List (List (List ℕ))) (step : ℕ) (pieces : List Piece)
        → IsEmittable p gs → pieces ≡ emitted p gs plan arrangements step
        → pieces_words (pieces ++ called_helper_pieces pieces) ≤ STARTUP_WORDS + ROUTINE_WORDS + code_weight p.statics gs }
    // So all pieces of a typed program have at most as many words as it weighs, and those.
    ensures program { (t : ProgramTree) (plan : DataPlan) (arrangements : List (List (List ℕ))) (step : ℕ) (pieces : List Piece)
        → ∥ IsProgram t ∥₁ → pieces ≡ emitted (lowered_program t) (selected (lowered_program t)) plan arrangements step
        → pieces_words (pieces ++ called_helper_pieces pieces) ≤ STARTUP_WORDS + ROUTINE_WORDS + source_weight t }
{}
