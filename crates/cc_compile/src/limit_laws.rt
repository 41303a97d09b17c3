//! The law of sources that are compiled whatever is chosen.
ghost use Rattle.std.specs.Prelude.{ℕ, List};
ghost use Rattle.c_tree.specs.TypedTree.{ProgramTree};
ghost use Rattle.frame_layouts.specs.declared.options.Options.{Options};
ghost use Rattle.cc_compile.specs.Limits.{IsWithinLimits};
ghost use Rattle.cc_compile.specs.declared.fault.BuildFault.{BuildFault};
ghost use Rattle.cc_compile.specs.SourceFaults.{HasFault, HasNoProgramFor, HasProgram};

/// A typed source whose data find room, and which is so small that its code does, has no fault, however its frames are laid out. So its
/// compilation is refused for want of memory alone. It does nothing: its clauses are what callers cite.
pub fn sources_within_limits_have_no_fault()
    ensures none { (o : Options) (bytes : List ℕ) (fault : BuildFault) → IsWithinLimits bytes → ¬ HasFault o bytes fault }
    // A typed source has no fault of tokens, syntax or types, however large it is.
    ensures typed { (bytes : List ℕ) (program : ProgramTree) (fault : BuildFault) → HasProgram bytes program → ¬ HasNoProgramFor fault bytes }
{
    crate::laws::full_code_is_large();
}
