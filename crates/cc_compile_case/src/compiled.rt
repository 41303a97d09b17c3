//! What a source is compiled to.
use cc_compile::{BuildFault, Options, compile};
use cc_report::ReportRow;
use meeting_gate::Meeting;
use std::alloc::Global;
use std::thread::Threads;
use word_base::NoMemory;

/// The greatest length of a source, in bytes.
const SOURCE_LIMIT: usize = 1_048_576;

/// The cost of each function's frame and whether it is optimal, and whether pieces 0 and 1 met, in a line each.
pub(crate) fn compiled<R: Threads + Sync>(
    rt: &R,
    alloc: Global,
    source: &[u8],
) -> Result<String, BuildFault> {
    if source.len() > SOURCE_LIMIT {
        return Ok(String::new(alloc));
    }
    let gate = Meeting::new();
    let options = Options {
        registers: 1,
        step: 1,
        budget: 200_000,
    };
    let built = compile(rt, alloc, &gate, source, options)?;
    Ok(lines(alloc, &built.rows, gate.took_place())?)
}

fn lines(alloc: Global, rows: &[ReportRow], met: bool) -> Result<String, NoMemory> {
    let mut lines = String::new(alloc);
    for row in rows {
        let name = row.name.as_str();
        write!(lines, "{name} {} {}\n", row.cost, row.optimal)?;
    }
    lines.push_str(if met { "met\n" } else { "missed\n" })?;
    Ok(lines)
}
