//! The lines of a report.
ghost use Rattle.std.specs.Prelude.{◌≡◌, ◌++◌, IfOk, OnOk};
ghost use Rattle.cc_report.specs.Report as report;
ghost use Rattle.cc_report.specs.Report.{report_line, report_lines};

use lay_text::push_decimal;
use std::alloc::Global;
use word_base::{NoMemory, Text};

/// What is told of a function: its name, the scalars of its frame, temporaries among them, over how many address registers they are
/// laid out, how often they are accessed, how many address instructions this takes, and whether no layout takes fewer.
#[derive(Drop)]
pub struct ReportRow {
    pub name: Text,
    pub scalars: u8,
    pub registers: u8,
    pub accesses: u32,
    pub cost: u64,
    pub optimal: bool,
}

/// A number and the word behind it.
pub(crate) fn push_count(text: &mut Vec<u8>, number: u64, word: &[u8]) -> Result<(), NoMemory>
    ensures { OnOk result (text.new.items ≡ text.old.items ++ report.count number word.now) }
{
    push_decimal(text, number)?;
    text.extend_from_slice(word)?;
    Ok(())
}

/// What is told of a layout.
pub(crate) fn claim(optimal: bool) -> &'static [u8]
    ensures { result.now ≡ report.claim optimal }
{
    if optimal { b"optimal" } else { b"best" }
}

// The four numbers.
fn push_counts(text: &mut Vec<u8>, row: &ReportRow) -> Result<(), NoMemory>
    ensures { OnOk result (text.new.items ≡ text.old.items ++ report.counts row.now) }
{
    push_count(text, u64::from(row.scalars), b" scalars, ")?;
    push_count(text, u64::from(row.registers), b" registers, ")?;
    push_count(text, u64::from(row.accesses), b" accesses, ")?;
    push_count(text, row.cost, b" address instructions, ")?;
    Ok(())
}

// The line of a function, with its line feed.
fn push_row(text: &mut Vec<u8>, row: &ReportRow) -> Result<(), NoMemory>
    ensures { OnOk result (text.new.items ≡ text.old.items ++ report_line row.now) }
{
    text.extend_from_slice(row.name.as_str().as_bytes())?;
    text.extend_from_slice(b": ")?;
    push_counts(text, row)?;
    text.extend_from_slice(claim(row.optimal))?;
    text.push(b'\n')?;
    Ok(())
}

/// The text of a report: a line for each row, in order, with a line feed behind each. Only the want of memory is refused.
pub fn report_text(alloc: Global, rows: &[ReportRow]) -> Result<Vec<u8>, NoMemory>
    ensures { IfOk result (λ text. text.items ≡ report_lines rows.now) }
{
    let mut text = Vec::new(alloc);
    for row in rows {
        push_row(&mut text, row)?;
    }
    Ok(text)
}
