//! What a recorded run says of functions: how often it enters blocks of each, and what is searched for each.
ghost use Rattle.std.specs.Prelude.{◌≡◌, map, sum, All, IfOk};
ghost use Rattle.std.specs.List.{flat_map};
ghost use Rattle.cc_compile.specs.frame_layouts.Frames.{IsJob, job_with};
ghost use Rattle.lay_profile.specs.Recordings.{AreCounts, AreProfileOptions, entered_from, recording_of, search_options, weighed_from};
ghost use Rattle.lay_profile.specs.ShapedFunctions.{ArePlaced};
ghost use Rattle.lay_profile.specs.Weighing.{weighed};

use crate::options::ProfileOptions;
use crate::recording::entries;
use crate::shapes::Shaped;
use crate::weighing::weigh;
use c25_isa::Image;
use cc_compile::Job;
use lay_model::{MOST_SCALARS, Sequence};
use std::alloc::Global;
use word_base::{NoMemory, Ports};

/// What is searched for functions, and how often a run enters blocks of each, both in the order of the functions.
#[derive(Drop)]
pub(crate) struct Recorded {
    pub(crate) jobs: Vec<Job>,
    pub(crate) entered: Vec<u64>,
}

// The places of the blocks of all functions, in order.
fn all_places(alloc: Global, functions: &[Shaped]) -> Result<Vec<u16>, NoMemory>
    ensures { IfOk result (λ places. places.items ≡ flat_map (λ s. s.places.items) functions.now) }
{
    let mut places = Vec::new(alloc);
    for function in functions {
        places.extend_from_slice(&function.places)?;
    }
    Ok(places)
}

// What is searched for accesses whose blocks a run enters so often.
fn job_for(
    alloc: Global,
    options: ProfileOptions,
    accesses: &Sequence,
    counts: &[u64],
) -> Result<Job, NoMemory>
    requires options { AreProfileOptions options }
    requires counts { AreCounts accesses.now counts.now }
    ensures job { IfOk result (λ job. job ≡ job_with (search_options options) (weighed accesses.now counts.now)) }
    ensures is_job { IfOk result IsJob }
{
    let weighed = weigh(alloc, accesses, counts)?;
    Ok(Job::new(weighed, options.registers, options.budget))
}

// How often a run enters any of the blocks of accesses, where it enters each so often.
fn total(accesses: &Sequence, counts: &[u64]) -> u64
    requires { AreCounts accesses.now counts.now }
    ensures { result ≡ sum counts.now }
{
    // A sequence has no block without accesses, so it has as many accesses as counts at least, and the sum fits.
    let is_sequence = accesses.scalars() <= MOST_SCALARS;
    prove!(is_sequence);
    let mut entered: u64 = 0;
    for count in counts {
        entered += *count;
    }
    entered
}

/// What the run of an image from zeros on what the ports are given says of functions that have places in the image, for
/// each in order, by the first steps that the options count. Only the want of memory is refused.
pub(crate) fn record_run(
    alloc: Global,
    image: &Image,
    ports: &Ports,
    options: ProfileOptions,
    functions: &[Shaped],
) -> Result<Recorded, NoMemory>
    requires options { AreProfileOptions options }
    requires placed { ArePlaced image.now functions.now }
    ensures jobs { IfOk result (λ r. r.jobs.items ≡ map (job_with (search_options options))
        (weighed_from (recording_of image.now ports.now options.steps) 0 (map (λ s. s.accesses) functions.now))) }
    ensures are_jobs { IfOk result (λ r. All IsJob r.jobs.items) }
    ensures entered { IfOk result (λ r. r.entered.items
        ≡ entered_from (recording_of image.now ports.now options.steps) 0 (map (λ s. s.accesses) functions.now)) }
{
    let places = all_places(alloc, functions)?;
    let counts = entries(alloc, image, &places, ports, options.steps)?;
    let mut jobs = Vec::new(alloc);
    let mut entered = Vec::new(alloc);
    let mut rest = counts.as_slice();
    for function in functions {
        let (own, more) = rest.split_at(function.places.len());
        jobs.push(job_for(alloc, options, &function.accesses, own)?)?;
        entered.push(total(&function.accesses, own))?;
        rest = more;
    }
    Ok(Recorded { jobs, entered })
}
