//! The layouts that are searched.
ghost use Rattle.std.specs.Prelude.{◌≡◌, map, length, All, IfOk};
ghost use Rattle.acc_code.specs.AccSequence.{IsInFrame};
ghost use Rattle.acc_code.specs.AccView.{function_items_of};
ghost use Rattle.frame_layouts.specs.Frames as frames;
ghost use Rattle.frame_layouts.specs.Frames.{AreOptions, AreLayouts, IsJob, job_of, findings_with, lists_with};
ghost use Rattle.lay_tree.specs.Search.{answer_lists};

use crate::options::Options;
use acc_code::{AccFunction, sequence};
use lay_cert::Claim;
use lay_model::{Arrangement, MOST_SCALARS};
use lay_par::{Job, search_all};
use lay_tree::{Answer, Log};
use std::alloc::Global;
use std::thread::Threads;
use word_base::{Gate, NoMemory, Text};

/// What was searched for a function's frame, and what was found of it beside its layout.
#[derive(Drop)]
pub struct Finding {
    pub name: Text,
    pub job: Job,
    pub cost: u64,
    pub claim: Claim,
    pub log: Log,
}

/// The layouts of functions' frames, in order, and what else was found of them.
#[derive(Drop)]
pub struct Layouts {
    pub arrangements: Vec<Arrangement>,
    pub findings: Vec<Finding>,
}

/// The layouts of the frames of functions by their jobs, one for each in order. The pieces of a search run in threads of their own where
/// those can be made, and the gate sees each of them begin and end. What is found is the same whatever the threads do.
pub fn lay_out<R: Threads + Sync, G: Gate + Sync>(
    rt: &R,
    alloc: Global,
    gate: &G,
    functions: &[AccFunction],
    jobs: Vec<Job>,
) -> Result<Layouts, NoMemory>
    requires one_each { length jobs.items ≡ length functions.now }
    ensures { IfOk result (AreLayouts (map function_items_of functions.now) jobs.items) }
{
    let answers = search_all(rt, alloc, gate, &jobs)?;
    found(alloc, functions, jobs, answers)
}

/// What is to be searched for each function as it is compiled: a layout for its accesses, each block of which counts once.
pub fn jobs_of(
    alloc: Global,
    options: Options,
    functions: &[AccFunction],
) -> Result<Vec<Job>, NoMemory>
    requires options { AreOptions options }
    requires in_frames { All (λ f. IsInFrame (function_items_of f)) functions.now }
    ensures jobs { IfOk result (λ jobs. jobs.items ≡ map (job_of options) (map function_items_of functions.now)) }
    ensures are_jobs { IfOk result (λ jobs. All IsJob jobs.items) }
{
    let mut jobs = Vec::new(alloc);
    for function in functions {
        jobs.push(job_for(alloc, options, function)?)?;
    }
    Ok(jobs)
}

fn job_for(alloc: Global, options: Options, function: &AccFunction) -> Result<Job, NoMemory>
    requires options { AreOptions options }
    requires in_frame { IsInFrame (function_items_of function.now) }
    ensures job { IfOk result (λ job. job ≡ job_of options (function_items_of function.now)) }
    ensures is_job { IfOk result IsJob }
{
    let accesses = sequence(alloc, function)?.with_step(options.step);
    let few = accesses.scalars() <= MOST_SCALARS;
    prove!(few);
    Ok(Job::new(accesses, options.registers, options.budget))
}

// What was found of each function: a job and an answer stand for it.
fn found(
    alloc: Global,
    functions: &[AccFunction],
    jobs: Vec<Job>,
    answers: Vec<Answer>,
) -> Result<Layouts, NoMemory>
    ensures arrangements { IfOk result (λ l. l.arrangements.items ≡ lists_with (map function_items_of functions.now) jobs.items answers.items) }
    ensures findings { IfOk result (λ l. l.findings.items ≡ findings_with (map function_items_of functions.now) jobs.items answers.items) }
{
    let mut arrangements = Vec::new(alloc);
    let mut findings = Vec::new(alloc);
    let mut jobs = jobs.into_iter();
    let mut answers = answers.into_iter();
    for function in functions {
        let Some(job) = jobs.next() else {
            break;
        };
        let Some(answer) = answers.next() else {
            break;
        };
        let name = Text::copy_of(alloc, function.name.as_str())?;
        let (arrangement, finding) = parts_of(name, job, answer);
        arrangements.push(arrangement)?;
        findings.push(finding)?;
    }
    Ok(Layouts {
        arrangements,
        findings,
    })
}

// The layout of an answer, and what else was found.
fn parts_of(name: Text, job: Job, answer: Answer) -> (Arrangement, Finding)
    ensures lists { result.0 ≡ answer_lists answer }
    ensures finding { result.1 ≡ frames.finding_of name job answer }
{
    match answer {
        Answer::Certified {
            arrangement,
            cost,
            log,
        } => {
            let finding = Finding {
                name,
                job,
                cost,
                claim: Claim::Optimal,
                log,
            };
            (arrangement, finding)
        }
        Answer::Exhausted {
            arrangement,
            cost,
            piece,
            quota,
            log,
        } => {
            let finding = Finding {
                name,
                job,
                cost,
                claim: Claim::Best { piece, quota },
                log,
            };
            (arrangement, finding)
        }
    }
}
