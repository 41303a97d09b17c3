//! Runs of bytes of one kind.
ghost use Rattle.std.specs.Prelude.{◌↔◌, IsTrue};
ghost use Rattle.word_base.specs.Name.{IsNamePart};
ghost use Rattle.c_syntax.specs.Spelling.{IsNumberPart};
ghost use Rattle.c_lexer.specs.Front.{IsFrontRun};

use word_base::is_name_part;

fn is_number_part(byte: u8) -> bool
    ensures { IsTrue result ↔ IsNumberPart byte }
{
    is_name_part(byte) || byte == b'.'
}

/// The parts of a name at the front, as many as there are, and what stands behind them.
pub fn name_run(bytes: &[u8]) -> (&[u8], &[u8])
    ensures { IsFrontRun IsNamePart bytes.now result.0.now result.1.now }
{
    match bytes.iter().position(|byte| !is_name_part(*byte)) {
        Some(end) => bytes.split_at(end),
        None => (bytes, &[]),
    }
}

/// The parts of a number at the front, as many as there are, and what stands behind them.
pub(crate) fn number_run(bytes: &[u8]) -> (&[u8], &[u8])
    ensures { IsFrontRun IsNumberPart bytes.now result.0.now result.1.now }
{
    match bytes.iter().position(|byte| !is_number_part(*byte)) {
        Some(end) => bytes.split_at(end),
        None => (bytes, &[]),
    }
}
