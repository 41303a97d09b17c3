//! The law of code that finds no room.
ghost use Rattle.std.specs.Prelude.{◌≤◌, ◌<◌, ℕ, ◌+◌, ◌*◌, List};
ghost use Rattle.c_syntax.specs.Counts.{unit_count};
ghost use Rattle.c25_link.specs.declared.fault.LinkFault.TheVariants.{CodeFull};
ghost use Rattle.frame_layouts.specs.declared.options.Options.{Options};
ghost use Rattle.cc_compile.specs.declared.fault.BuildFault.TheVariants.{Link};
ghost use Rattle.c_tree.specs.TypedTree.{ProgramTree};
ghost use Rattle.cc_compile.specs.Images.{FrameJobs, HasLinkFault};
ghost use Rattle.cc_compile.specs.SourceFaults.{HasFault, HasTree, IsTypedWith};

/// The code of a source finds no room only where the source is large: the words that it needs are more than 65,536, and at most 1,000 and 64 for each of
/// its expressions, statements and declared items. It does nothing: its clauses are what callers cite.
pub fn full_code_is_large()
    ensures source { (o : Options) (bytes : List ℕ) (words : ℕ) → HasFault o bytes (Link (CodeFull words)) → HasTree bytes (λ source. (65536 < words) × (words ≤ 1000 + 64 * unit_count source)) }
    // So it is whichever layouts are searched for its frames.
    ensures jobs { (jobs : ProgramTree → FrameJobs) (bytes : List ℕ) (words : ℕ) → HasTree bytes (IsTypedWith (λ program. HasLinkFault (jobs program) program (CodeFull words)))
        → HasTree bytes (λ source. (65536 < words) × (words ≤ 1000 + 64 * unit_count source)) }
{
    c_syntax::functions_have_names();
    c_syntax::trees_are_small();
    c_types::typed_is_well_formed();
    crate::image_laws::code_is_bounded();
    size_proof::programs_weigh_by_nodes();
}
