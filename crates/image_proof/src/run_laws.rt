//! The law of translation. The call does nothing: its clauses are what crates above cite.
ghost use Rattle.std.specs.Prelude.{ℕ, List};
ghost use Rattle.word_base.specs.Ports.{Input, IsInput};
ghost use Rattle.c_tree.specs.TypedTree.{ProgramTree};
ghost use Rattle.c_tree.specs.WellFormedProgram.{IsProgram};
ghost use Rattle.tree_code.specs.Lowered.{lowered_program};
ghost use Rattle.acc_select.specs.Selected.{selected};
ghost use Rattle.mem_plan.specs.declared.data_plan.DataPlan.{DataPlan};
ghost use Rattle.mem_plan.specs.Plan.{AreArranged, IsPlan};
ghost use Rattle.ir_semantics.specs.Keeps.{Keeps, acc_run};
ghost use Rattle.ir_semantics.specs.Outside.{address_of};
ghost use Rattle.ir_semantics.specs.SourceWork.{worked_run};
ghost use Rattle.c_tree.specs.TypedOfWords.{ProgramHasWords};
ghost use Rattle.tree_code_proof.specs.Surroundings.{ArePlaces};
ghost use Rattle.acc_select_proof.specs.Selecting.{AreFar};
ghost use Rattle.image_proof.specs.PlanPlaces.{places_of};

/// The accumulator code of a typed program of words, with objects where the plan of its data memory has them, does what the program does: the
/// same outputs and ending with at most as much work, a run that goes on goes on, and where the program does something undefined the outputs
/// before are kept.
pub fn translation_keeps_runs()
    // A plan has objects at places that lowering and selection ask for.
    ensures places { (t : ProgramTree) (arrangements : List (List (List ℕ))) (plan : DataPlan) → IsProgram t → AreArranged (lowered_program t).functions arrangements → IsPlan (lowered_program t) arrangements plan → ArePlaces (places_of plan) t }
    ensures far { (t : ProgramTree) (arrangements : List (List (List ℕ))) (plan : DataPlan) → AreArranged (lowered_program t).functions arrangements → IsPlan (lowered_program t) arrangements plan → (f : ℕ) → AreFar (address_of (places_of plan) f) }
    ensures keeps { (t : ProgramTree) (arrangements : List (List (List ℕ))) (plan : DataPlan) (input : Input) (n : ℕ) → IsProgram t → ProgramHasWords t → AreArranged (lowered_program t).functions arrangements → IsPlan (lowered_program t) arrangements plan → IsInput input → Keeps (worked_run t input n) (acc_run (places_of plan) (lowered_program t) (selected (lowered_program t)) input n) }
{
    mem_plan::plans_keep_apart();
    tree_code_proof::lowering_keeps_runs();
    acc_select_proof::typed_programs_keep();
}
