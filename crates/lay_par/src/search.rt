//! Whole searches, one behind another.
ghost use Rattle.std.specs.Prelude.{◌≡◌, ◌≤◌, map, IfOk};
ghost use Rattle.lay_tree.specs.Search as tree;
ghost use Rattle.lay_search.specs.Rounds.{IsBest};

use crate::job::Job;
use crate::pieces::{Pieces, run_pieces};
use lay_model::Sequence;
use lay_search::{Best, Opening, Root, close_search, open_search, round_end};
use lay_tree::Answer;
use std::alloc::Global;
use std::thread::Threads;
use word_base::{Gate, NoMemory};

/// What each job's search answers, in the order of the jobs. The pieces of a round run in threads of their own where those can be made,
/// and the gate sees each piece begin and end. The answers, logs included, are those of `search`, whatever the threads do.
pub fn search_all<R: Threads + Sync, G: Gate + Sync>(
    rt: &R,
    alloc: Global,
    gate: &G,
    jobs: &[Job],
) -> Result<Vec<Answer>, NoMemory>
    ensures { IfOk result (λ answers. answers.items ≡ map (λ job. tree.search_answer job.registers job.sequence job.budget) jobs.now) }
{
    let mut answers = Vec::new(alloc);
    for job in jobs {
        answers.push(search_job(rt, alloc, gate, job)?)?;
    }
    Ok(answers)
}

fn search_job<R: Threads + Sync, G: Gate + Sync>(
    rt: &R,
    alloc: Global,
    gate: &G,
    job: &Job,
) -> Result<Answer, NoMemory>
    ensures { IfOk result (λ answer. answer ≡ tree.search_answer job.now.registers job.now.sequence job.now.budget) }
{
    search_one(
        rt,
        alloc,
        gate,
        job.sequence(),
        job.registers(),
        job.budget(),
    )
}

// The answer of `search`.
fn search_one<R: Threads + Sync, G: Gate + Sync>(
    rt: &R,
    alloc: Global,
    gate: &G,
    seq: &Sequence,
    registers: u8,
    budget: u32,
) -> Result<Answer, NoMemory>
    requires { 1 ≤ registers }
    ensures { IfOk result (λ answer. answer ≡ tree.search_answer registers seq.now budget) }
{
    match open_search(alloc, seq, registers, budget)? {
        Opening::Done(answer) => Ok(answer),
        Opening::Split {
            arrangement,
            cost,
            quota,
            ..
        } => search_pieces(
            rt,
            alloc,
            gate,
            seq,
            registers,
            quota,
            Best { arrangement, cost },
        ),
    }
}

// Rounds of four pieces, each with the best arrangement that stood before its round.
fn search_pieces<R: Threads + Sync, G: Gate + Sync>(
    rt: &R,
    alloc: Global,
    gate: &G,
    seq: &Sequence,
    registers: u8,
    quota: u32,
    start: Best,
) -> Result<Answer, NoMemory>
    requires registers { 1 ≤ registers }
    requires start { IsBest seq.now start }
    ensures { IfOk result (λ answer. answer ≡ tree.search_pieces registers seq.now quota start.arrangement) }
{
    let root = Root::new(alloc, seq, registers)?;
    let pieces = seq.scalars();
    let mut best = start;
    let mut ends = Vec::new(alloc);
    for turn in 0..pieces.div_ceil(4) {
        let first = turn * 4;
        let round = Pieces {
            quota,
            first,
            end: round_end(first, pieces),
        };
        let mut more = run_pieces(rt, alloc, gate, seq, &root, round, &best)?;
        best.take(alloc, &more)?;
        ends.append(&mut more)?;
    }
    close_search(alloc, quota, best.arrangement, best.cost, &ends)
}
