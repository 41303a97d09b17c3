//! The law of faults.
ghost use Rattle.std.specs.Prelude.{ℕ, List};
ghost use Rattle.frame_layouts.specs.declared.options.Options.{Options};
ghost use Rattle.cc_compile.specs.declared.fault.BuildFault.{BuildFault};
ghost use Rattle.cc_compile.specs.SourceFaults.{HasFault, IsAccepted, IsUntyped, IsOfTypes, IsSameFault};

/// A source has at most one fault, but for the place that one of syntax names and for which one of types, and none where it is
/// accepted. It does nothing: its clauses are what callers cite.
pub fn one_source_fault()
    ensures one { (o : Options) (bytes : List ℕ) (a b : BuildFault) → HasFault o bytes a → HasFault o bytes b → IsSameFault a b }
    // A source without a typed program has none but of types.
    ensures untyped { (o : Options) (bytes : List ℕ) (a : BuildFault) → IsUntyped bytes → HasFault o bytes a → IsOfTypes a }
    ensures apart { (o : Options) (bytes : List ℕ) → IsUntyped bytes → ¬ IsAccepted o bytes }
    ensures none { (o : Options) (bytes : List ℕ) (a : BuildFault) → IsAccepted o bytes → ¬ HasFault o bytes a }
{}
