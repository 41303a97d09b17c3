//! The law of sequence files.
ghost use Rattle.lay_model.specs.Sequences.{Sequence};
ghost use Rattle.lay_text.specs.SequenceText.{sequence_text};
ghost use Rattle.lay_text.specs.SequenceReading.{IsWhole, Reads};

/// Reading the text of a sequence gives the sequence. It does nothing: its clause is what callers cite.
pub fn written_sequences_are_read()
    ensures { (s : Sequence) → IsWhole s → Reads (sequence_text s) s }
{}
