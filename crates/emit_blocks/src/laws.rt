//! Laws of runs: the call does nothing, its clauses are what crates above cite.
ghost use Rattle.std.specs.Prelude.{◌≡◌, ◌<◌, ℕ, Bool, List, [], Option, None};
ghost use Rattle.c_tree.specs.declared.program.VarRef.{VarRef};
ghost use Rattle.acc_code.specs.AccTree.{Item, ItemList, item};
ghost use Rattle.acc_code.specs.Emittable.{Throughout, RefersRight};
ghost use Rattle.emit_blocks.specs.Places.{Places};
ghost use Rattle.emit_blocks.specs.Steps.{Operation, run_at, behind_run, operation_of, IsNoRun, steps_of};
ghost use Rattle.emit_blocks.specs.Runs.{all_steps_code, run_code};
ghost use Rattle.emit_blocks.specs.Right.{AreRight, IsRightRun, AreRightSteps, HaveWords, AreInstrs};
ghost use Rattle.emit_blocks.specs.declared.step.Step.{Step};

/// The instructions of a right run are the machine's.
#[tactic(auto, using(crate::proofs::Rightness::run_right, crate::proofs::Rightness::no_run, crate::proofs::Fitting::all_steps_fit))]
pub fn runs_fit()
    ensures right { (s : Places) (os : List Operation) → IsRightRun s os → AreRightSteps (steps_of s os) }
    ensures fit { (step : ℕ) (xs : List Step) → step < 256 → AreRightSteps xs → HaveWords xs → AreInstrs (all_steps_code step xs) }
    // The operations of code that meets what emission wants are right, and what stands behind a run meets it too.
    ensures emittable { (scalars : ℕ) (cells : VarRef → Option ℕ) (parameters : ℕ → Option ℕ) (helps : Bool) (xs : ItemList) → Throughout (RefersRight scalars cells parameters helps) xs → AreRight (run_at xs) }
    ensures behind { (scalars : ℕ) (cells : VarRef → Option ℕ) (parameters : ℕ → Option ℕ) (helps : Bool) (xs : ItemList) → Throughout (RefersRight scalars cells parameters helps) xs → Throughout (RefersRight scalars cells parameters helps) (behind_run xs) }
    // A run without operations has no instructions. It stands before an item that is none, and behind each run.
    ensures none { (s : Places) → run_code s [] ≡ [] }
    ensures no_run { (x : Item) (xs : ItemList) → operation_of x ≡ None → IsNoRun (item x xs) }
    ensures none_behind { (xs : ItemList) → IsNoRun (behind_run xs) }
{}
