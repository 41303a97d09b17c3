//! The reports on a program: a line for each function, with what its frame costs in address instructions, or with what it
//! costs a recorded run.
#![tactic(auto)]

mod profile;
mod report;

pub use profile::{ProfileRow, profile_text};
pub use report::{ReportRow, report_text};
