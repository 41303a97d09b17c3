//! Assembling texts.
ghost use Rattle.std.specs.Prelude.{◌≡◌, ◌⊎◌, ◌≤◌, ◌++◌, length, Ok, Err, IfOk, IfErr, OnOk, MatchResult};
ghost use Rattle.std.specs.Str.Lines.{lines};
ghost use Rattle.c25_asm.specs.declared.statement.LineFault.{LineFault};
ghost use Rattle.c25_asm.specs.declared.statement.LineWords.{LineWords};
ghost use Rattle.c25_asm.specs.declared.fault.AsmFault.TheVariants as faults;
ghost use Rattle.c25_asm.specs.AssemblerText.{assembled, fault_at, words_from, words_list};
ghost use Rattle.c25_asm.specs.LabelView.{known};
ghost use Rattle.c25_asm.specs.Names.{AreSmall};
ghost use Rattle.c25_asm.specs.Statements as statements;

use crate::fault::AsmFault;
use crate::labels::{LabelTable, labels_of};
use crate::lines::next_line;
use crate::statement::{LineFault, LineWords, line_words};
use std::alloc::Global;

/// The most words that a text has.
const MOST_WORDS: usize = 65536;

impl LineFault {
    // The fault of the line of a number.
    fn at(self, line: u64) -> AsmFault
        ensures { result ≡ fault_at line self }
    {
        match self {
            LineFault::BadLine => AsmFault::BadLine { line },
            LineFault::LabelTwice => AsmFault::LabelTwice { line },
            LineFault::OutOfRange => AsmFault::OutOfRange { line },
            LineFault::UnknownLabel => AsmFault::UnknownLabel { line },
        }
    }
}

// Puts the words of a line behind others.
fn push_words(words: &mut Vec<u16>, line: LineWords) -> Result<(), AsmFault>
    ensures put { OnOk result (words.new.items ≡ words.old.items ++ words_list line) }
    ensures memory { IfErr result (λ f. f ≡ faults.NoMemory) }
{
    match line {
        LineWords::Nothing => {}
        LineWords::One(word) => words.push(word)?,
        LineWords::Two(first, second) => words.extend_from_slice(&[first, second])?,
    }
    Ok(())
}

// Puts the words of the line of a number behind others.
fn push_line(
    words: &mut Vec<u16>,
    labels: &LabelTable<'_>,
    number: u64,
    line: &[u8],
) -> Result<(), AsmFault>
    requires { AreSmall (known labels.now) }
    ensures { MatchResult result
        (λ _. (found : LineWords) × (statements.line_words (known labels.now) number line.now ≡ Ok found) × (words.new.items ≡ words.old.items ++ words_list found))
        (λ f. (f ≡ faults.NoMemory) ⊎ ((told : LineFault) × (statements.line_words (known labels.now) number line.now ≡ Err told) × (f ≡ fault_at number told))) }
{
    match line_words(labels, number, line) {
        Ok(found) => push_words(words, found),
        Err(fault) => Err(fault.at(number)),
    }
}

// The words of all lines.
fn words_of(alloc: Global, labels: &LabelTable<'_>, text: &[u8]) -> Result<Vec<u16>, AsmFault>
    requires { AreSmall (known labels.now) }
    ensures { MatchResult result
        (λ words. words_from (known labels.now) 1 (lines text.now) ≡ Ok words.items)
        (λ f. (f ≡ faults.NoMemory) ⊎ (words_from (known labels.now) 1 (lines text.now) ≡ Err f)) }
{
    let mut words = Vec::new(alloc);
    let mut number = 1;
    let mut rest = text;
    while !rest.is_empty() {
        let (line, behind) = next_line(rest);
        push_line(&mut words, labels, number, line)?;
        number += 1;
        rest = behind;
    }
    Ok(words)
}

/// The words of an assembler text.
///
/// A line holds a label and `:`, or an instruction, or `.word` and a word, or nothing. The first line with a fault is told, and of
/// several faults on one line the one that `BadLine`, `LabelTwice`, `OutOfRange` and `UnknownLabel` name first. A label behind a
/// faulty line is known. `TooLong` comes where no line has a fault.
pub fn assemble(alloc: Global, text: &[u8]) -> Result<Vec<u16>, AsmFault>
    // The words are those of the text.
    ensures words { IfOk result (λ words. assembled text.now ≡ Ok words.items) }
    // The fault is that of the text, unless memory is wanting.
    ensures fault { IfErr result (λ fault. (fault ≡ faults.NoMemory) ⊎ (assembled text.now ≡ Err fault)) }
    ensures few { IfOk result (λ words. length words.items ≤ 65536) }
{
    let labels = labels_of(alloc, text)?;
    let words = words_of(alloc, &labels, text)?;
    if words.len() > MOST_WORDS {
        return Err(AsmFault::TooLong {
            count: words.len() as u64,
        });
    }
    Ok(words)
}
