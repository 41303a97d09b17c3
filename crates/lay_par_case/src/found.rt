//! What the two searches find.
use lay_model::Sequence;
use lay_par::{Job, search_all};
use lay_search::search;
use lay_text::{SeqFault, read_sequence};
use lay_tree::Answer;
use meeting_gate::Meeting;
use std::alloc::Global;
use std::thread::Threads;
use word_base::NoMemory;

const BUDGET: u32 = 1_000_000;

/// The answer of one thread, that of several, and whether pieces 0 and 1 met, in a line each.
pub(crate) fn both<R: Threads + Sync>(
    rt: &R,
    alloc: Global,
    text: &[u8],
) -> Result<String, SeqFault> {
    let mut lines = String::new(alloc);
    let sequence = read_sequence(alloc, text)?;
    push_answer(&mut lines, &search(alloc, &sequence, 1, BUDGET)?)?;
    push_threads(rt, alloc, &mut lines, sequence)?;
    Ok(lines)
}

fn push_threads<R: Threads + Sync>(
    rt: &R,
    alloc: Global,
    lines: &mut String,
    sequence: Sequence,
) -> Result<(), NoMemory> {
    let gate = Meeting::new();
    let mut jobs = Vec::new(alloc);
    jobs.push(Job::new(sequence, 1, BUDGET))?;
    for answer in &search_all(rt, alloc, &gate, &jobs)? {
        push_answer(lines, answer)?;
    }
    lines.push_str(if gate.took_place() {
        "met\n"
    } else {
        "missed\n"
    })?;
    Ok(())
}

fn push_answer(lines: &mut String, answer: &Answer) -> Result<(), NoMemory> {
    write!(lines, "{answer:?}\n")?;
    Ok(())
}
