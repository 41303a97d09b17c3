//! The lines of an image's text, read one by one.
ghost use Rattle.std.specs.Prelude.{◌≡◌, ◌≢◌, ◌<◌, ◌^◌, ◌∷◌, ◌++◌, ℕ, List, MatchOption, IfOk, length, codes};
ghost use Rattle.c25_isa.specs.declared.image.FunctionRange.{FunctionRange};
ghost use Rattle.word_base.specs.Name.{IsName};
ghost use Rattle.c25_image.specs.ImageText.{range_words, range_line, size_line};
ghost use Rattle.c25_image.specs.ImageReading.{IsRow, ReadsRow, IsNamed};

use c25_isa::FunctionRange;
use std::alloc::Global;
use text_base::{front_spaced, front_word, read_decimal};
use word_base::{NoMemory, Text, name_text};

/// The words on a full line.
pub(crate) const WORDS_TO_A_LINE: usize = 8;

/// The bytes of a function's first and last word, each behind one space.
const RANGE_BYTES: usize = 10;

// How many words the line states.
pub(crate) fn read_size(line: &[u8]) -> Option<u64>
    ensures { MatchOption result ((n : ℕ) → n < 2 ^ 64 → line.now ≢ size_line n) (λ n. line.now ≡ size_line n) }
{
    read_decimal(line.strip_prefix(b"words ")?)
}

// Reads the words of a line behind the others, and says whether it is a line of words.
pub(crate) fn read_row(words: &mut Vec<u16>, line: &[u8]) -> Result<bool, NoMemory>
    ensures { IfOk result (ReadsRow line.now words.old.items words.new.items) }
{
    let Some((first, mut rest)) = front_word(line) else {
        return Ok(false);
    };
    words.push(first)?;
    while let Some((word, after)) = front_spaced(rest) {
        words.push(word)?;
        rest = after;
    }
    Ok(rest.is_empty())
}

// The two words that the bytes spell, each behind one space.
fn read_pair(bytes: &[u8]) -> Option<(u16, u16)>
    requires { length bytes.now ≡ 10 }
    ensures { MatchOption result
        ((first last : ℕ) → first < 2 ^ 16 → last < 2 ^ 16 → bytes.now ≢ range_words first last)
        (λ found. bytes.now ≡ range_words found.0 found.1) }
{
    let (first, rest) = front_spaced(bytes)?;
    let (last, _) = front_spaced(rest)?;
    Some((first, last))
}

// The name, the first and the last word of the function that the line is of.
fn range_parts(line: &[u8]) -> Option<(&str, u16, u16)>
    ensures { MatchOption result
        ((f : FunctionRange) → IsNamed f → line.now ≢ range_line f)
        (λ found. IsName found.0.now × (line.now ≡ codes "func " ++ (found.0.now ++ range_words found.1 found.2))) }
{
    let rest = line.strip_prefix(b"func ")?;
    if rest.len() < RANGE_BYTES {
        return None;
    }
    let (name, range) = rest.split_at(rest.len() - RANGE_BYTES);
    let name = name_text(name)?;
    let (first, last) = read_pair(range)?;
    Some((name, first, last))
}

// The function that the line is of.
pub(crate) fn read_range(alloc: Global, line: &[u8]) -> Result<Option<FunctionRange>, NoMemory>
    ensures { IfOk result (λ found. MatchOption found
        ((f : FunctionRange) → IsNamed f → line.now ≢ range_line f)
        (λ f. IsNamed f × (line.now ≡ range_line f))) }
{
    let Some((name, first, last)) = range_parts(line) else {
        return Ok(None);
    };
    Ok(Some(FunctionRange {
        name: Text::copy_of(alloc, name)?,
        first,
        last,
    }))
}
