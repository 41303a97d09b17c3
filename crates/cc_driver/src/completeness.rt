//! The laws of commands that are sure to be done.
ghost use Rattle.std.specs.Prelude.{ℕ, IsTrue, List, [], ◌∷◌};
ghost use Rattle.cc_words.specs.Asked.{ToBuild, ToRun, ToEvaluate, ToExecute, ToLayOut, ToCheck, ToAssemble, ToList};
ghost use Rattle.cc_files.specs.cc_compile.Limits.{IsWithinLimits};
ghost use Rattle.cc_files.specs.World.{Shelves, Sinks};
ghost use Rattle.cc_shelf.specs.Reliable.{PutsStayReliable, StaysReliable};
ghost use Rattle.cc_driver.specs.Answers.{Answers};
ghost use Rattle.cc_driver.specs.Asm.{text_file};
ghost use Rattle.cc_driver.specs.Build.{source_file, FileHas};
ghost use Rattle.cc_driver.specs.Check.{certificate_file};
ghost use Rattle.cc_driver.specs.Commands.{FilesHave};
ghost use Rattle.cc_driver.specs.Layout.{sequence_file};
ghost use Rattle.cc_driver.specs.Run.{image_file, ports_file};
ghost use Rattle.cc_driver.specs.Completeness.{AreReliable, NothingFails, Completes, IsTypedSource, IsImageText, IsPortText, IsSequenceText, IsCertificateText, IsAssemblerText};

/// A command is done unless memory is wanting, where its files are told, each within its limit and in its format, and no count of faults rises. `build` and
/// `exec` want a source within the limits: a typed one whose data find room, and with 1,000 words and 64 for each expression, statement and declared item
/// the code too. `means` wants a typed one alone. So who knows the files beforehand knows the status. It does nothing: its clauses are what callers cite.
pub fn commands_complete()
    ensures build { (source image : List ℕ) (registers budget step : ℕ) (shelf : Shelves) (sink : Sinks) (status : ℕ)
        → Answers (ToBuild source image registers budget step) shelf sink status → NothingFails shelf sink
        → FileHas shelf (source_file source) IsWithinLimits
        → Completes (ToBuild source image registers budget step) (0 ∷ []) shelf status }
    ensures exec { (source ports : List ℕ) (steps : ℕ) (shelf : Shelves) (sink : Sinks) (status : ℕ)
        → Answers (ToExecute source ports steps) shelf sink status → NothingFails shelf sink
        → FilesHave shelf (source_file source) (ports_file ports) (λ s p. IsWithinLimits s × IsPortText p)
        → Completes (ToExecute source ports steps) (0 ∷ 6 ∷ 7 ∷ []) shelf status }
    ensures means { (source ports : List ℕ) (turns : ℕ) (shelf : Shelves) (sink : Sinks) (status : ℕ)
        → Answers (ToEvaluate source ports turns) shelf sink status → NothingFails shelf sink
        → FilesHave shelf (source_file source) (ports_file ports) (λ s p. IsTypedSource s × IsPortText p)
        → Completes (ToEvaluate source ports turns) (0 ∷ 6 ∷ 10 ∷ []) shelf status }
    ensures run { (image ports : List ℕ) (steps : ℕ) (shelf : Shelves) (sink : Sinks) (status : ℕ)
        → Answers (ToRun image ports steps) shelf sink status → NothingFails shelf sink
        → FilesHave shelf (image_file image) (ports_file ports) (λ i p. IsImageText i × IsPortText p)
        → Completes (ToRun image ports steps) (0 ∷ 6 ∷ 7 ∷ []) shelf status }
    ensures layout { (sequence : List ℕ) (registers budget : ℕ) (shelf : Shelves) (sink : Sinks) (status : ℕ)
        → Answers (ToLayOut sequence registers budget) shelf sink status → NothingFails shelf sink
        → FileHas shelf (sequence_file sequence) IsSequenceText
        → Completes (ToLayOut sequence registers budget) (0 ∷ []) shelf status }
    ensures check { (image certificate : List ℕ) (shelf : Shelves) (sink : Sinks) (status : ℕ)
        → Answers (ToCheck image certificate) shelf sink status → NothingFails shelf sink
        → FilesHave shelf (image_file image) (certificate_file certificate) (λ i c. IsImageText i × IsCertificateText c)
        → Completes (ToCheck image certificate) (0 ∷ 8 ∷ []) shelf status }
    ensures asm { (text image : List ℕ) (shelf : Shelves) (sink : Sinks) (status : ℕ)
        → Answers (ToAssemble text image) shelf sink status → NothingFails shelf sink
        → FileHas shelf (text_file text) IsAssemblerText
        → Completes (ToAssemble text image) (0 ∷ []) shelf status }
    ensures dis { (image : List ℕ) (shelf : Shelves) (sink : Sinks) (status : ℕ)
        → Answers (ToList image) shelf sink status → NothingFails shelf sink
        → FileHas shelf (image_file image) IsImageText
        → Completes (ToList image) (0 ∷ []) shelf status }
    // Nothing fails where no call can: the top call keeps that (`shelf_reliable`, `sink_reliable`), and those in memory tell it.
    ensures reliable { (shelf : Shelves) (sink : Sinks) → IsTrue shelf.tells → AreReliable shelf sink → StaysReliable shelf.before shelf.now
        → PutsStayReliable sink.before sink.now → NothingFails shelf sink }
{
    cc_files::sources_within_limits_have_no_fault();
}
