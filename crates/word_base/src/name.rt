//! Names.
ghost use Rattle.std.specs.Prelude.{◌≡◌, ◌↔◌, IsTrue, All, MatchOption};
ghost use Rattle.word_base.specs.Name.{IsName, IsNameStart, IsNamePart};

use std::str;

/// Whether the bytes are a letter or `_`, and then letters, digits and `_`, at most 127 in all.
pub fn is_name(bytes: &[u8]) -> bool
    ensures { IsTrue result ↔ IsName bytes.now }
{
    !bytes.is_empty() && bytes.len() <= 127 && is_name_start(bytes[0]) && all_name_parts(bytes)
}

/// The name that the bytes are, as a text.
pub fn name_text(bytes: &[u8]) -> Option<&str>
    ensures { MatchOption result (IsName bytes.now → ⊥) (λ name. IsName name.now × (name.now ≡ bytes.now)) }
{
    if !is_name(bytes) {
        return None;
    }
    match str::from_utf8(bytes) {
        Ok(name) => Some(name),
        Err(_) => None,
    }
}

fn all_name_parts(bytes: &[u8]) -> bool
    ensures { IsTrue result ↔ All IsNamePart bytes.now }
{
    bytes.iter().all(|byte| is_name_part(*byte))
}

/// Whether the byte is a letter or `_`.
pub fn is_name_start(byte: u8) -> bool
    ensures { IsTrue result ↔ IsNameStart byte }
{
    byte.is_ascii_alphabetic() || byte == b'_'
}

/// Whether the byte is a letter, a digit or `_`.
pub fn is_name_part(byte: u8) -> bool
    ensures { IsTrue result ↔ IsNamePart byte }
{
    byte.is_ascii_alphanumeric() || byte == b'_'
}
