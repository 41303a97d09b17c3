//! What lines say.
ghost use Rattle.std.specs.Prelude.{◌≡◌, option_copied};
ghost use Rattle.c25_isa.specs.Rows as table;
ghost use Rattle.c25_isa.specs.Table.{FitsForm};
ghost use Rattle.c25_asm.specs.Cuts as cuts;
ghost use Rattle.c25_asm.specs.LabelView.{known};
ghost use Rattle.c25_asm.specs.Names.{AreSmall};
ghost use Rattle.c25_asm.specs.Statements as statements;

use crate::cuts::{before_colon, cut_head, statement};
use crate::forms::{code_of, form_operands};
use crate::labels::LabelTable;
use crate::operands::{name_of, word};
use crate::rows::{is_data, mnemonic_of};
use c25_isa::{Fields, Mnemonic};

/// Why a line is faulty, in the order in which the faults of one line are told.
#[derive(Clone, Copy)]
pub enum LineFault {
    /// It isn't in the format.
    BadLine,
    /// It has the label of an earlier line.
    LabelTwice,
    /// A number doesn't fit its field.
    OutOfRange,
    /// It names a label that no line has.
    UnknownLabel,
}

/// The words of a line.
#[derive(Clone, Copy)]
pub enum LineWords {
    Nothing,
    One(u16),
    Two(u16, u16),
}

/// Where a label stands.
#[derive(Clone, Copy)]
pub struct Place {
    /// The number of the words before it, modulo 65,536.
    pub number: u16,
    /// The first line that has it, counted from 1.
    pub line: u64,
}

/// The label that a line has.
pub(crate) fn label_of(line: &[u8]) -> Option<&str>
    ensures { option_copied result ≡ statements.label_of line.now }
{
    name_of(before_colon(statement(line))?)
}

// The line of a label, which stands first on this line.
fn label_words(labels: &LabelTable<'_>, number: u64, text: &[u8]) -> Result<LineWords, LineFault>
    ensures { result ≡ statements.label (known labels.now) number text.now }
{
    let Some(name) = name_of(text) else {
        return Err(LineFault::BadLine);
    };
    match labels.find(name) {
        Some(place) if place.line != number => Err(LineFault::LabelTwice),
        _ => Ok(LineWords::Nothing),
    }
}

// The operands of a row. SPM has one, which is always the same.
fn row_operands(labels: &LabelTable<'_>, row: Mnemonic, text: &[u8]) -> Result<Fields, LineFault>
    ensures { result ≡ statements.row_operands (known labels.now) row text.now }
{
    match row {
        Mnemonic::Spm if text == b"0".as_slice() => Ok(Fields::NoOperand),
        Mnemonic::Spm => Err(LineFault::BadLine),
        _ => form_operands(labels, row.row().form, text),
    }
}

// The words of a row with its operands.
fn row_words(row: Mnemonic, fields: &Fields) -> LineWords
    requires { FitsForm (table.row row).form fields.now }
    ensures { result ≡ statements.row_words row fields.now }
{
    let first = row.row().base + code_of(fields);
    match fields.second_word() {
        None => LineWords::One(first),
        Some(second) => LineWords::Two(first, second),
    }
}

// A word as a number or a label, or an instruction.
fn instruction(labels: &LabelTable<'_>, text: &[u8]) -> Result<LineWords, LineFault>
    requires { AreSmall (known labels.now) }
    ensures { result ≡ statements.instruction (known labels.now) (cuts.head_word text.now) (cuts.behind_head text.now) }
{
    let (head, operands) = cut_head(text);
    if is_data(head) {
        return Ok(LineWords::One(word(labels, operands)?));
    }
    let Some(row) = mnemonic_of(head) else {
        return Err(LineFault::BadLine);
    };
    let fields = row_operands(labels, row, operands)?;
    Ok(row_words(row, &fields))
}

/// The words of the line of this number.
#[tactic(auto, using(crate::proofs::StatementLemmas::filled))]
pub(crate) fn line_words(
    labels: &LabelTable<'_>,
    number: u64,
    line: &[u8],
) -> Result<LineWords, LineFault>
    requires { AreSmall (known labels.now) }
    ensures { result ≡ statements.line_words (known labels.now) number line.now }
{
    let text = statement(line);
    if text.is_empty() {
        return Ok(LineWords::Nothing);
    }
    match before_colon(text) {
        Some(name) => label_words(labels, number, name),
        None => instruction(labels, text),
    }
}
