//! Laws of the walks of images. The call does nothing: its clauses are what crates above cite.
ghost use Rattle.std.specs.Prelude.{◌≤◌, ◌<◌, ℕ, List, length};
ghost use Rattle.c_tree.specs.TypedTree.{ProgramTree};
ghost use Rattle.c_tree.specs.WellFormedProgram.{IsProgram};
ghost use Rattle.tree_code.specs.Lowered.{lowered_program};
ghost use Rattle.c_tree.specs.TypedOfWords.{ProgramHasWords};
ghost use Rattle.tree_code.specs.WordTree.{FunctionCode};
ghost use Rattle.image_proof.specs.acc_select.IsSelected.{IsEmittable};
ghost use Rattle.image_proof.specs.acc_select.Selected.{selected};
ghost use Rattle.mem_plan.specs.declared.data_plan.DataPlan.{DataPlan};
ghost use Rattle.mem_plan.specs.Plan.{AreArranged, IsPlan};
ghost use Rattle.acc_code.specs.AccTree.{FunctionItems};
ghost use Rattle.mem_plan.specs.declared.data_plan.FramePlan.{FramePlan};
ghost use Rattle.c25_isa.specs.Image.{Contents};
ghost use Rattle.c25_isa.specs.Pieces.{Piece, Linked, PiecesFit};
ghost use Rattle.image_proof.specs.Emissions.{Emission, IsEmission};
ghost use Rattle.image_proof.specs.Agreeing.{emission_of};
ghost use Rattle.image_proof.specs.Keeping.{all_pieces};
ghost use Rattle.image_proof.specs.FunctionWalks.{HasWalk, IsFunctionOf};

/// In an image that is linked from the pieces of accumulator code and from any behind them, wherever they stand, a walk of each function finds the
/// accesses of its blocks, each scalar where its frame has it, and so many address instructions as the lists of the frame cost.
pub fn images_walk()
    ensures walks { (e : Emission) (routines : List Piece) (image : Contents) (k : ℕ) (code : FunctionCode) (g : FunctionItems) (frame : FramePlan) (lists : List (List ℕ)) → IsEmission e → Linked (all_pieces e routines) image → PiecesFit (all_pieces e routines) → length image.words ≤ 65536 → IsFunctionOf e k code g frame lists
        → HasWalk image k e.step g frame lists }
{
    crate::pieces_walk();
}

/// So it is of a typed program of words.
pub fn programs_walk()
    ensures walks { (t : ProgramTree) (plan : DataPlan) (arrangements : List (List (List ℕ))) (step : ℕ) (routines : List Piece) (image : Contents) (k : ℕ) (code : FunctionCode) (g : FunctionItems) (frame : FramePlan) (lists : List (List ℕ)) → IsProgram t → ProgramHasWords t → AreArranged (lowered_program t).functions arrangements → IsPlan (lowered_program t) arrangements plan
        → IsEmittable (lowered_program t) (selected (lowered_program t)) → step < 256 → Linked (all_pieces (emission_of t plan arrangements step) routines) image → PiecesFit (all_pieces (emission_of t plan arrangements step) routines) → length image.words ≤ 65536
        → IsFunctionOf (emission_of t plan arrangements step) k code g frame lists → HasWalk image k step g frame lists }
{
    images_walk();
    crate::translation_keeps_runs();
    crate::typed_programs_keep();
}
