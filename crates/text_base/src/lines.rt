//! The lines of a text.
ghost use Rattle.std.specs.Prelude.{◌≡◌, ◌<◌, ◌∷◌, ◌++◌, length, MatchOption};
ghost use Rattle.std.specs.Str.Lines.{lines, strip_carriage_return};
ghost use Rattle.text_base.specs.Lines.{with_feed, Lacks};

use crate::fields::front_until;

/// The first line without its line feed, and what stands behind that.
pub fn front_line(bytes: &[u8]) -> Option<(&[u8], &[u8])>
    ensures { MatchOption result (Lacks 10 bytes.now) (λ found. Lacks 10 found.0.now × (bytes.now ≡ with_feed found.0.now ++ found.1.now)) }
{
    front_until(bytes, b'\n')
}

// The line without the one carriage return at its end.
fn without_return(line: &[u8]) -> &[u8]
    ensures { result.now ≡ strip_carriage_return line.now }
{
    match line {
        [front @ .., b'\r'] => front,
        _ => line,
    }
}

/// The first line, and what stands behind it. One carriage return before its line feed belongs to the end of a line, and the last line may lack its
/// line feed.
pub fn next_line(bytes: &[u8]) -> (&[u8], &[u8])
    requires { 0 < length bytes.now }
    ensures lines { lines bytes.now ≡ result.0.now ∷ lines result.1.now }
    ensures shorter { length result.1.now < length bytes.now }
{
    match front_line(bytes) {
        Some((line, rest)) => (without_return(line), rest),
        None => bytes.split_at(bytes.len()),
    }
}
