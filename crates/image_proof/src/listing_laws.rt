//! Laws of the data accesses of runs along the ranges of functions. The calls do nothing: their clauses are what crates above cite.
ghost use Rattle.std.specs.Prelude.{◌≤◌, ◌<◌, ℕ, List, length};
ghost use Rattle.c_tree.specs.TypedTree.{ProgramTree};
ghost use Rattle.c_tree.specs.WellFormedProgram.{IsProgram};
ghost use Rattle.tree_code.specs.Lowered.{lowered_program};
ghost use Rattle.c_tree.specs.TypedOfWords.{ProgramHasWords};
ghost use Rattle.image_proof.specs.acc_select.IsSelected.{IsEmittable};
ghost use Rattle.image_proof.specs.acc_select.Selected.{selected};
ghost use Rattle.mem_plan.specs.declared.data_plan.DataPlan.{DataPlan};
ghost use Rattle.mem_plan.specs.Plan.{AreArranged, IsPlan};
ghost use Rattle.c25_isa.specs.Image.{Contents};
ghost use Rattle.c25_isa.specs.Pieces.{Piece, Linked, PiecesFit};
ghost use Rattle.image_proof.specs.Emissions.{Emission, IsEmission};
ghost use Rattle.image_proof.specs.Agreeing.{emission_of};
ghost use Rattle.image_proof.specs.Keeping.{all_pieces};
ghost use Rattle.image_proof.specs.Listing.{AllListFrames};

/// In each run of an image that is linked from the pieces of accumulator code and from any others, wherever they are, a word of a function's scalar is
/// accessed along the stretches of the function as a walk of its range lists it, or through another address register than AR2 to AR5.
pub fn images_list_frames()
    ensures frames { (e : Emission) (routines : List Piece) (image : Contents) → IsEmission e → Linked (all_pieces e routines) image → PiecesFit (all_pieces e routines) → length image.words ≤ 65536 → AllListFrames e image }
{
    crate::images_walk();
    crate::images_are_direct();
}

/// So it is of a typed program of words.
pub fn programs_list_frames()
    ensures frames { (t : ProgramTree) (plan : DataPlan) (arrangements : List (List (List ℕ))) (step : ℕ) (routines : List Piece) (image : Contents) → IsProgram t → ProgramHasWords t → AreArranged (lowered_program t).functions arrangements → IsPlan (lowered_program t) arrangements plan
        → IsEmittable (lowered_program t) (selected (lowered_program t)) → step < 256 → Linked (all_pieces (emission_of t plan arrangements step) routines) image → PiecesFit (all_pieces (emission_of t plan arrangements step) routines)
        → length image.words ≤ 65536 → AllListFrames (emission_of t plan arrangements step) image }
{
    images_list_frames();
    crate::translation_keeps_runs();
    crate::typed_programs_keep();
}
