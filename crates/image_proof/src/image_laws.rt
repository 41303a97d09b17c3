//! Laws of images. Each call does nothing: its clauses are what crates above cite.
ghost use Rattle.std.specs.Prelude.{◌<◌, ◌≤◌, ◌+◌, ◌*◌, ℕ, List, length};
ghost use Rattle.word_base.specs.Ports.{Input, IsInput};
ghost use Rattle.c_tree.specs.SourceRun.{source_run};
ghost use Rattle.c_tree.specs.TypedTree.{ProgramTree};
ghost use Rattle.c_tree.specs.WellFormedProgram.{IsProgram};
ghost use Rattle.tree_code.specs.Lowered.{lowered_program};
ghost use Rattle.c_tree.specs.TypedOfWords.{ProgramHasWords, StartsWithWords};
ghost use Rattle.acc_select.specs.IsSelected.{IsEmittable};
ghost use Rattle.acc_select.specs.Selected.{selected};
ghost use Rattle.mem_plan.specs.declared.data_plan.DataPlan.{DataPlan};
ghost use Rattle.mem_plan.specs.Plan.{AreArranged, IsPlan};
ghost use Rattle.c25_isa.specs.Agrees.{Agrees};
ghost use Rattle.c25_isa.specs.Image.{Contents};
ghost use Rattle.c25_isa.specs.MachineRun.{machine_run};
ghost use Rattle.c25_isa.specs.Pieces.{Piece, Linked, PiecesFit};
ghost use Rattle.c25_isa.specs.State.{BeginsWith, IsStart, Start};
ghost use Rattle.ir_semantics.specs.Keeps.{acc_run};
ghost use Rattle.frame_emit.specs.Startup.{static_words};
ghost use Rattle.image_proof.specs.PlanPlaces.{places_of};
ghost use Rattle.image_proof.specs.Emissions.{Emission, IsEmission};
ghost use Rattle.image_proof.specs.Agreeing.{EndsInTime, emission_of};
ghost use Rattle.c25_helper.specs.Answering.{AnswersCalls};
ghost use Rattle.image_proof.specs.Keeping.{AreUsable, MachineKeeps, all_pieces, own_pieces};

/// An image that is linked from the pieces of accumulator code, and from routines that answer its calls, does from a reset what the code does,
/// wherever they stand: it ends with the same outputs and ending, in time; a run that goes on goes on, step for turn; and where the code does
/// something undefined the outputs before are put. So it is whatever the registers, the modes, data memory and the rest of program memory held.
pub fn images_keep_runs()
    ensures keeps { (e : Emission) (routines : List Piece) (image : Contents) (b : Start) (input : Input) (n : ℕ) → IsEmission e → AreUsable e → StartsWithWords e.code.statics → AnswersCalls (own_pieces e) routines → Linked (all_pieces e routines) image → PiecesFit (all_pieces e routines) → length image.words ≤ 65536
        → IsStart b → BeginsWith image.words b → IsInput input → MachineKeeps (acc_run (places_of e.plan) e.code e.items input n) (machine_run b input) n (1000 + 16 * static_words e.code.statics) }
{
    emit_proof::code_meets();
    crate::calls_stand();
}

/// So the image of a typed program of words agrees with the program, and ends in time where the program ends.
pub fn images_agree()
    ensures agree { (t : ProgramTree) (plan : DataPlan) (arrangements : List (List (List ℕ))) (step : ℕ) (routines : List Piece) (image : Contents) → IsProgram t → ProgramHasWords t → AreArranged (lowered_program t).functions arrangements → IsPlan (lowered_program t) arrangements plan
        → IsEmittable (lowered_program t) (selected (lowered_program t)) → step < 256 → AnswersCalls (own_pieces (emission_of t plan arrangements step)) routines → Linked (all_pieces (emission_of t plan arrangements step) routines) image → PiecesFit (all_pieces (emission_of t plan arrangements step) routines) → length image.words ≤ 65536
        → Agrees (source_run t) image.words }
    ensures in_time { (t : ProgramTree) (plan : DataPlan) (arrangements : List (List (List ℕ))) (step : ℕ) (routines : List Piece) (image : Contents) → IsProgram t → ProgramHasWords t → AreArranged (lowered_program t).functions arrangements → IsPlan (lowered_program t) arrangements plan
        → IsEmittable (lowered_program t) (selected (lowered_program t)) → step < 256 → AnswersCalls (own_pieces (emission_of t plan arrangements step)) routines → Linked (all_pieces (emission_of t plan arrangements step) routines) image → PiecesFit (all_pieces (emission_of t plan arrangements step) routines) → length image.words ≤ 65536
        → EndsInTime t image.words }
{
    images_keep_runs();
    crate::translation_keeps_runs();
    acc_select_proof::typed_programs_keep();
    crate::selected_is_usable();
}
