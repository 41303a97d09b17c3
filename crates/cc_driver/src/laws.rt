//! The laws of layouts and of executions.
ghost use Rattle.std.specs.Prelude.{◌≡◌, ◌<◌, ◌≤◌, ◌^◌, ◌++◌, ℕ, List, [], Some, codes, decimal};
ghost use Rattle.word_base.specs.Ports.{input_of};
ghost use Rattle.c25_sim.specs.Taken.{of_sixteen};
ghost use Rattle.cc_files.specs.image_proof.Telling.{TellsOf};
ghost use Rattle.lay_model.specs.Sequences.{Sequence};
ghost use Rattle.lay_cost.specs.Cost.{Least};
ghost use Rattle.lay_text.specs.SequenceReading.{Reads};
ghost use Rattle.cc_answers.specs.Answers.{Answered};
ghost use Rattle.cc_driver.specs.Exec.{ExecutesTo};
ghost use Rattle.cc_driver.specs.Gen.{GeneratesTo, gen_steps};
ghost use Rattle.cc_driver.specs.Layout.{LaysOutTo};
ghost use Rattle.cc_driver.specs.Telling.{StatusTells};

/// Where the first line of a layout says that its cost is optimal, no placement of the file's sequence over so many registers costs
/// less. It does nothing: its clause is what callers cite.
pub fn optimal_layouts_are_least()
    ensures { (bytes : List ℕ) (registers budget c : ℕ) (answer : Answered) (rest : List ℕ) → 1 ≤ registers → c < 2 ^ 64
        → LaysOutTo bytes registers budget answer → answer.text ≡ Some (codes "cost " ++ (decimal c ++ (codes " optimal\n" ++ rest)))
        → (seq : Sequence) × Reads bytes seq × Least seq registers c }
{
    lay_tree::answers_cost_little();
    lay_tree::certified_answers_are_least();
}

/// What an execution tells of its source: where it ended, the source ends with the same outputs and ending, or does something undefined; it came to a
/// trap, which is status 7, only where the source does something undefined; and where the source ends, it is through in time, so that status 6 comes
/// within the bound on steps alone. It does nothing: its clauses are what callers cite.
pub fn executions_tell()
    ensures tell { (source ports : List ℕ) (steps : ℕ) (answer : Answered) (h : ExecutesTo source ports steps answer) → ∥ TellsOf h.built.program (of_sixteen (input_of h.lines)) steps h.runs.outs h.runs.stands ∥₁ }
    ensures statuses { (source ports : List ℕ) (steps : ℕ) (answer : Answered) (h : ExecutesTo source ports steps answer) → ∥ StatusTells h.built.program (of_sixteen (input_of h.lines)) steps h.runs.outs h.runs.stands answer.status ∥₁ }
{
    cc_files::runs_tell();
}

/// What the run of a generated program tells of it, in the same way. It does nothing: its clauses are what callers cite.
pub fn generated_programs_tell()
    ensures tell { (number : ℕ) (answer : Answered) (h : GeneratesTo number answer) → ∥ TellsOf h.built.program (of_sixteen (input_of [])) gen_steps h.summarizes.outs h.summarizes.stands ∥₁ }
    ensures statuses { (number : ℕ) (answer : Answered) (h : GeneratesTo number answer) → ∥ StatusTells h.built.program (of_sixteen (input_of [])) gen_steps h.summarizes.outs h.summarizes.stands answer.status ∥₁ }
{
    cc_files::runs_tell();
}
