//! The lines of a text, one behind another.
ghost use Rattle.std.specs.Prelude.{◌≡◌, ◌<◌, ◌∷◌, length};
ghost use Rattle.std.specs.Str.Lines.{lines, strip_carriage_return};

use crate::cuts::cut;

// The line without the one carriage return at its end.
fn without_return(line: &[u8]) -> &[u8]
    ensures { result.now ≡ strip_carriage_return line.now }
{
    match line {
        [front @ .., b'\r'] => front,
        _ => line,
    }
}

/// The first line, and what stands behind it.
pub(crate) fn next_line(text: &[u8]) -> (&[u8], &[u8])
    requires { 0 < length text.now }
    ensures lines { lines text.now ≡ result.0.now ∷ lines result.1.now }
    ensures shorter { length result.1.now < length text.now }
{
    let (line, rest) = cut(text, b'\n');
    match rest {
        Some(rest) => (without_return(line), rest),
        None => (line, &[]),
    }
}
