//! What the usual words ask for.
ghost use Rattle.cc_words.specs.Bounds.{AsksWithin};
ghost use Rattle.cc_words_proof.specs.Plain.{BuildsNoOtherNames, BuildsTwoNames, RunsTwoNames, MeansTwoNames};
ghost use Rattle.cc_words_proof.specs.Plain.{BuildsWithRegisters, BuildsWithBudget, BuildsWithStep, BuildsWithStepAttached, BuildsWithAll};
ghost use Rattle.cc_words_proof.specs.Plain.{ChecksTwoNames, ChecksNoOtherNames, AssemblesTwoNames, AssemblesNoOtherNames};
ghost use Rattle.cc_words_proof.specs.Plain.{DebugsThreeNames, DebugsNoOtherNames, ExpandsTwoNames, ExpandsNoOtherNames};
ghost use Rattle.cc_words_proof.specs.Plain.{JoinsNames, JoinsNoOtherNames, PbuildsFourNames, PbuildsNoOtherNames, PbuildsWithAll, PbuildsWithoutStep};
ghost use Rattle.cc_words_proof.specs.Plain.{ListsOneName, ListsNoOtherNames, GeneratesOneNumber, GeneratesNoOtherWords};
ghost use Rattle.cc_words_proof.specs.Plain.{RunsWithSteps, RunsWithStepsAttached, RunsWithStepsFirst};
ghost use Rattle.cc_words_proof.specs.Plain.{ExecutesTwoNames, ExecutesWithSteps, ExecutesWithStepsAttached, ExecutesWithStepsFirst};
ghost use Rattle.cc_words_proof.specs.Plain.{MeansWithTurns, MeansWithTurnsAttached, MeansWithTurnsFirst};
ghost use Rattle.cc_words_proof.specs.Plain.{LaysOutOneName, LaysOutNoOtherNames, LaysOutWithRegisters, LaysOutWithRegistersFirst};
ghost use Rattle.cc_words_proof.specs.Plain.{LaysOutWithRegistersAttached, LaysOutWithBudget, LaysOutWithBudgetFirst};
ghost use Rattle.cc_words_proof.specs.Plain.{LaysOutWithBudgetAttached, LaysOutWithBoth, LaysOutWithBothFirst, LaysOutWithBothTurned};

/// The words that hold no option but those of their command ask for what one would say, and no words
/// ask for a run of other than 1 to 100,000,000 steps, for an evaluation of other than 1 to 1,000,000
/// turns, for a layout or an image for other than 1 to 4 registers or within a budget of other than 1 to
/// 1,000,000 nodes, for an image at a step of other than 1 to 8, for a program from a number other than
/// 1 to 200, to join other than 1 to 16 sources, or for layouts for a recorded run with numbers other than
/// `layout` and `run` have. It does nothing: its clauses are what callers cite.
pub fn plain_words()
    ensures build { BuildsTwoNames }
    ensures build_other { BuildsNoOtherNames }
    ensures build_registers { BuildsWithRegisters }
    ensures build_budget { BuildsWithBudget }
    ensures step { BuildsWithStep }
    ensures step_attached { BuildsWithStepAttached }
    ensures registers_budget_and_step { BuildsWithAll }
    ensures run { RunsTwoNames }
    ensures steps { RunsWithSteps }
    ensures steps_first { RunsWithStepsFirst }
    ensures steps_attached { RunsWithStepsAttached }
    ensures means { MeansTwoNames }
    ensures turns { MeansWithTurns }
    ensures turns_first { MeansWithTurnsFirst }
    ensures turns_attached { MeansWithTurnsAttached }
    ensures exec { ExecutesTwoNames }
    ensures exec_steps { ExecutesWithSteps }
    ensures exec_steps_first { ExecutesWithStepsFirst }
    ensures exec_steps_attached { ExecutesWithStepsAttached }
    ensures layout { LaysOutOneName }
    ensures layout_other { LaysOutNoOtherNames }
    ensures registers { LaysOutWithRegisters }
    ensures registers_first { LaysOutWithRegistersFirst }
    ensures registers_attached { LaysOutWithRegistersAttached }
    ensures budget { LaysOutWithBudget }
    ensures budget_first { LaysOutWithBudgetFirst }
    ensures budget_attached { LaysOutWithBudgetAttached }
    ensures registers_and_budget { LaysOutWithBoth }
    ensures both_first { LaysOutWithBothFirst }
    ensures budget_and_registers { LaysOutWithBothTurned }
    ensures check { ChecksTwoNames }
    ensures check_other { ChecksNoOtherNames }
    ensures asm { AssemblesTwoNames }
    ensures asm_other { AssemblesNoOtherNames }
    ensures dis { ListsOneName }
    ensures dis_other { ListsNoOtherNames }
    ensures number { GeneratesOneNumber }
    ensures no_number { GeneratesNoOtherWords }
    ensures debug { DebugsThreeNames }
    ensures debug_other { DebugsNoOtherNames }
    ensures pre { ExpandsTwoNames }
    ensures pre_other { ExpandsNoOtherNames }
    ensures join { JoinsNames }
    ensures join_other { JoinsNoOtherNames }
    ensures pbuild { PbuildsFourNames }
    ensures pbuild_other { PbuildsNoOtherNames }
    ensures pbuild_numbers { PbuildsWithAll }
    ensures pbuild_step { PbuildsWithoutStep }
    ensures range { AsksWithin }
{}
