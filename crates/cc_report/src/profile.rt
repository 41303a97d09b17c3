//! The lines of a report on layouts for a recorded run.
ghost use Rattle.std.specs.Prelude.{◌≡◌, ◌++◌, IfOk, OnOk};
ghost use Rattle.cc_report.specs.Profile.{profile_counts, profile_line, profile_lines};

use crate::report::{claim, push_count};
use std::alloc::Global;
use word_base::{NoMemory, Text};

/// What is told of a function of a recorded run: its name, the scalars of its frame, temporaries among them, for how
/// many address registers they are laid out, how often its blocks of accesses are entered in all, how many address
/// instructions the entered blocks need by the layout, each as often as it is entered, and whether no layout needs fewer.
#[derive(Drop)]
pub struct ProfileRow {
    pub name: Text,
    pub scalars: u8,
    pub registers: u8,
    pub entries: u64,
    pub weighted: u64,
    pub optimal: bool,
}

// The four numbers.
fn push_counts(text: &mut Vec<u8>, row: &ProfileRow) -> Result<(), NoMemory>
    ensures { OnOk result (text.new.items ≡ text.old.items ++ profile_counts row.now) }
{
    push_count(text, u64::from(row.scalars), b" scalars, ")?;
    push_count(text, u64::from(row.registers), b" registers, ")?;
    push_count(text, row.entries, b" entries, ")?;
    push_count(text, row.weighted, b" weighted, ")?;
    Ok(())
}

// The line of a function, with its line feed.
fn push_row(text: &mut Vec<u8>, row: &ProfileRow) -> Result<(), NoMemory>
    ensures { OnOk result (text.new.items ≡ text.old.items ++ profile_line row.now) }
{
    text.extend_from_slice(row.name.as_str().as_bytes())?;
    text.extend_from_slice(b": ")?;
    push_counts(text, row)?;
    text.extend_from_slice(claim(row.optimal))?;
    text.push(b'\n')?;
    Ok(())
}

/// The text of a report on layouts for a recorded run: a line for each row, in order, with a line feed behind each.
/// Only the want of memory is refused.
pub fn profile_text(alloc: Global, rows: &[ProfileRow]) -> Result<Vec<u8>, NoMemory>
    ensures { IfOk result (λ text. text.items ≡ profile_lines rows.now) }
{
    let mut text = Vec::new(alloc);
    for row in rows {
        push_row(&mut text, row)?;
    }
    Ok(text)
}
