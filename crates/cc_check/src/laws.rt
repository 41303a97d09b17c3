//! What the lines of a check mean.
ghost use Rattle.std.specs.Prelude.{◌≡◌, ℕ};
ghost use Rattle.lay_model.specs.Sequences.{IsSequence};
ghost use Rattle.lay_cert.specs.Frames.{Frame, IsFrame};
ghost use Rattle.c25_isa.specs.Image.{Contents};
ghost use Rattle.cc_check.specs.declared.finding.Finding.TheVariants.{Optimal};
ghost use Rattle.cc_check.specs.Findings.{finding_of};
ghost use Rattle.cc_check.specs.Checks.{IsOptimalIn};

/// Where a frame is found to be optimal, the walk over its function is its sequence at its bases, the function has as many address
/// instructions as the finding says, and no layout over its registers costs less. It does nothing: its clause is what callers cite.
pub fn optimal_means()
    ensures { (image : Contents) (f : Frame) (cost : ℕ) → IsFrame f → IsSequence f.seq → finding_of image f ≡ Optimal cost → IsOptimalIn image f cost }
{
    lay_cert::yes_means_least();
}
