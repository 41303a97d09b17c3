//! The laws of certificates.
ghost use Rattle.std.specs.Prelude.{◌≡◌, ◌⊎◌, ℕ, List, All};
ghost use Rattle.lay_model.specs.Sequences.{IsSequence};
ghost use Rattle.lay_cost.specs.Cost.{arranged_cost, Least};
ghost use Rattle.lay_cert.specs.Frames.{Frame, IsFrame, AreWhole};
ghost use Rattle.lay_cert.specs.Verdicts.{verdict_of};
ghost use Rattle.lay_cert.specs.declared.replaying.Verdict.TheVariants.{Yes};
ghost use Rattle.lay_cert.specs.CertText.{cert_text, old_text};
ghost use Rattle.lay_cert.specs.CertReading.{Reads};

/// Reading the text of a certificate gives the certificate, and so does reading its text of version 1 where each step is 1. It does nothing: its clauses are what
/// callers cite.
pub fn written_certificates_are_read()
    ensures written { (fs : List Frame) → AreWhole fs → Reads (cert_text fs) fs }
    ensures old { (fs : List Frame) → AreWhole fs → All (λ f. f.seq.step ≡ 1) fs → Reads (old_text fs) fs }
{}

/// Bytes that are read as a certificate are its text, of version 2, or of version 1 where each step is 1; and its numbers have their bits. It does nothing: its
/// clauses are what callers cite.
pub fn read_certificates_are_written()
    ensures one_spelling { (bytes : List ℕ) (fs : List Frame) → Reads bytes fs → (bytes ≡ cert_text fs) ⊎ ((bytes ≡ old_text fs) × All (λ f. f.seq.step ≡ 1) fs) }
    ensures whole { (bytes : List ℕ) (fs : List Frame) → Reads bytes fs → AreWhole fs }
{}

/// Where the replay of a frame says yes, its layout costs what is claimed, and no placement over its registers costs less.
pub fn yes_means_least()
    ensures costs { (f : Frame) → verdict_of f ≡ Yes → arranged_cost f.seq f.arr ≡ f.cost }
    ensures least { (f : Frame) → IsFrame f → IsSequence f.seq → verdict_of f ≡ Yes → Least f.seq f.registers f.cost }
{
    lay_tree::logs_show_least();
}
