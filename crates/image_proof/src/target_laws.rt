//! Laws of where jumps and calls lead. The calls do nothing: their clauses are what crates above cite.
ghost use Rattle.std.specs.Prelude.{◌≤◌, ◌<◌, ℕ, List, length};
ghost use Rattle.c_tree.specs.TypedTree.{ProgramTree};
ghost use Rattle.c_tree.specs.WellFormedProgram.{IsProgram};
ghost use Rattle.tree_code.specs.Lowered.{lowered_program};
ghost use Rattle.c_tree.specs.TypedOfWords.{ProgramHasWords};
ghost use Rattle.image_proof.specs.acc_select.IsSelected.{IsEmittable};
ghost use Rattle.image_proof.specs.acc_select.Selected.{selected};
ghost use Rattle.mem_plan.specs.declared.data_plan.DataPlan.{DataPlan};
ghost use Rattle.mem_plan.specs.Plan.{AreArranged, IsPlan};
ghost use Rattle.c25_isa.specs.Image.{Contents};
ghost use Rattle.c25_isa.specs.Pieces.{Piece, Linked, PiecesFit};
ghost use Rattle.image_proof.specs.Emissions.{Emission, IsEmission};
ghost use Rattle.image_proof.specs.Agreeing.{emission_of};
ghost use Rattle.image_proof.specs.c25_helper.Answering.{AnswersCalls};
ghost use Rattle.image_proof.specs.Keeping.{all_pieces, own_pieces};
ghost use Rattle.image_proof.specs.Leading.{AllHaveTargets};

/// In an image that is linked from the pieces of accumulator code, and from routines that answer its calls, wherever they stand, each jump of a
/// function leads to the first word of an instruction of its range, and each call to the first word of a function's range or of a routine.
pub fn images_lead_right()
    ensures targets { (e : Emission) (routines : List Piece) (image : Contents) → IsEmission e → AnswersCalls (own_pieces e) routines → (linked : Linked (all_pieces e routines) image) → PiecesFit (all_pieces e routines) → length image.words ≤ 65536 → AllHaveTargets e routines linked.place image }
{
    emit_proof::marks_are_right();
}

/// So it is of a typed program of words.
pub fn programs_lead_right()
    ensures targets { (t : ProgramTree) (plan : DataPlan) (arrangements : List (List (List ℕ))) (step : ℕ) (routines : List Piece) (image : Contents) → IsProgram t → ProgramHasWords t → AreArranged (lowered_program t).functions arrangements → IsPlan (lowered_program t) arrangements plan
        → IsEmittable (lowered_program t) (selected (lowered_program t)) → step < 256 → AnswersCalls (own_pieces (emission_of t plan arrangements step)) routines
        → (linked : Linked (all_pieces (emission_of t plan arrangements step) routines) image) → PiecesFit (all_pieces (emission_of t plan arrangements step) routines)
        → length image.words ≤ 65536 → AllHaveTargets (emission_of t plan arrangements step) routines linked.place image }
{
    images_lead_right();
    crate::translation_keeps_runs();
    crate::typed_programs_keep();
}
