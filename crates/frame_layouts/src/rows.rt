//! What a report tells of frames.
ghost use Rattle.std.specs.Prelude.{◌≡◌, map, IfOk};
ghost use Rattle.frame_layouts.specs.Rows as rows;
ghost use Rattle.frame_layouts.specs.Rows.{row_of};

use cc_report::ReportRow;
use lay_cert::{CertFrame, Claim};
use std::alloc::Global;
use word_base::{NoMemory, Text};

/// A row for each frame of a certificate, in order.
pub fn report_rows(alloc: Global, frames: &[CertFrame]) -> Result<Vec<ReportRow>, NoMemory>
    ensures { IfOk result (λ told. told.items ≡ map row_of frames.now) }
{
    let mut told = Vec::new(alloc);
    for frame in frames {
        told.push(row(alloc, frame)?)?;
    }
    Ok(told)
}

fn row(alloc: Global, frame: &CertFrame) -> Result<ReportRow, NoMemory>
    ensures { IfOk result (λ r. r ≡ row_of frame.now) }
{
    Ok(ReportRow {
        name: Text::copy_of(alloc, frame.name())?,
        scalars: frame.seq().scalars(),
        registers: frame.registers(),
        accesses: frame.seq().blocks().access_count(),
        cost: frame.cost(),
        optimal: is_optimal(frame.claim()),
    })
}

fn is_optimal(claim: Claim) -> bool
    ensures { result ≡ rows.is_optimal claim }
{
    match claim {
        Claim::Optimal => true,
        Claim::Best { .. } => false,
    }
}
