//! The law of what a source means and what its executions do.
ghost use Rattle.std.specs.Prelude.{◌≡◌, ℕ, List};
ghost use Rattle.cc_answers.specs.Answers.{Answered};
ghost use Rattle.cc_driver.specs.Exec.{ExecutesTo};
ghost use Rattle.cc_driver.specs.Means.{MeansTo};
ghost use Rattle.cc_driver.specs.Meanings.{EndsOrRuns, GoOnWith, PutThese, outputs_meant};

/// What `exec` puts for a source and a port file, by what `means` says of them. Where it says that the source ends, an execution answers the same, line and
/// status, or it still runs, which `executions_tell` bounds. Where a loop would take one turn more, each execution of at most so many steps still runs, and a
/// longer one puts the same outputs first; the steps are no fewer than the turns. Where the source does something undefined, each execution that is
/// long enough puts the outputs before that first. It does nothing: its clauses are what callers cite.
pub fn executions_mean()
    ensures ends { (source ports : List ℕ) (steps turns : ℕ) (executed meant : Answered)
        (e : ExecutesTo source ports steps executed) (m : MeansTo source ports turns meant)
        → meant.status ≡ 0 → ∥ EndsOrRuns source ports turns steps executed meant e m ∥₁ }
    ensures goes_on { (source ports : List ℕ) (steps turns : ℕ) (executed meant : Answered)
        → ExecutesTo source ports steps executed → (m : MeansTo source ports turns meant) → meant.status ≡ 6
        → ∥ GoOnWith source ports turns (outputs_meant source ports turns meant m) ∥₁ }
    ensures undefined { (source ports : List ℕ) (steps turns : ℕ) (executed meant : Answered)
        → ExecutesTo source ports steps executed → (m : MeansTo source ports turns meant) → meant.status ≡ 10
        → ∥ PutThese source ports (outputs_meant source ports turns meant m) ∥₁ }
{}
