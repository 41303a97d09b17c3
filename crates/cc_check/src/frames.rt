//! The words of a function against its frame.
ghost use Rattle.std.specs.Prelude.{◌≡◌, ◌<◌, ℕ, length, vec_len, IfOk, IfSome, option_and_then, slice_get};
ghost use Rattle.c25_isa.specs.Image.{Contents};
ghost use Rattle.c25_isa.specs.Walk.{Blocks};
ghost use Rattle.lay_model.specs.Sequences.{IsSequence};
ghost use Rattle.cc_check.specs.declared.finding.Finding.TheVariants.{Optimal};
ghost use Rattle.cc_check.specs.Findings.{count_finding, walk_finding, function_finding};
ghost use Rattle.cc_check.specs.Kept.{IsWalkOf, AreKept, kept_finding};

use crate::blocks::first_difference;
use crate::finding::Finding;
use crate::walks::{Walked, Walks};
use c25_isa::Image;
use c25_walk::WalkReport;
use lay_cert::{CertFrame, Replay};
use std::alloc::Global;
use word_base::NoMemory;

// What is found of a frame whose accesses are those of its words.
fn check_count(alloc: Global, frame: &CertFrame, count: u32) -> Result<Finding, NoMemory>
    ensures { IfOk result (λ finding. finding ≡ count_finding frame.now count) }
{
    let cost = frame.cost();
    if u64::from(count) != cost {
        return Ok(Finding::Count { count, cost });
    }
    let mut replay = Replay::new(alloc, frame)?;
    Ok(Finding::of_verdict(replay.replay(frame), cost))
}

// What is found of a frame by the walk over its words.
fn check_walk(alloc: Global, frame: &CertFrame, report: &WalkReport) -> Result<Finding, NoMemory>
    ensures finding { IfOk result (λ finding. finding ≡ walk_finding frame.now report.now.count (Blocks report.now.blocks.items)) }
    ensures sequence { IsSequence frame.now.seq }
{
    match first_difference(frame, &report.blocks) {
        Some(block) => Ok(Finding::WalkDiffers { block }),
        None => check_count(alloc, frame, report.count),
    }
}

// What is found of a frame by what the walk over its words comes to.
fn check_walked(alloc: Global, frame: &CertFrame, walked: &Walked) -> Result<Finding, NoMemory>
    ensures finding { IfOk result (λ finding. finding ≡ kept_finding frame.now walked.now) }
    ensures sequence { IfOk result (λ finding. (cost : ℕ) → finding ≡ Optimal cost → IsSequence frame.now.seq) }
{
    match walked {
        Walked::Report(report) => check_walk(alloc, frame, report),
        Walked::BadWord { at } => Ok(Finding::BadWord { at: *at }),
        Walked::UnknownAddress { at } => Ok(Finding::UnknownAddress { at: *at }),
    }
}

// The same by a walk that is new, which is kept.
fn check_first(
    alloc: Global,
    frame: &CertFrame,
    walks: &mut Walks,
    function: u16,
    walked: Walked,
) -> Result<Finding, NoMemory>
    requires { function < vec_len walks.old.kept }
    ensures finding { IfOk result (λ finding. finding ≡ kept_finding frame.now walked) }
    ensures sequence { IfOk result (λ finding. (cost : ℕ) → finding ≡ Optimal cost → IsSequence frame.now.seq) }
    ensures kept { (image : Contents) → AreKept image walks.old.kept.items → IsWalkOf image function walked → AreKept image walks.new.kept.items }
{
    let finding = check_walked(alloc, frame, &walked);
    walks.keep(function, walked);
    finding
}

// What is found of a frame in a function of the image, which is walked over unless its walk is kept.
fn check_function(
    alloc: Global,
    frame: &CertFrame,
    image: &Image,
    walks: &mut Walks,
    function: u16,
) -> Result<Finding, NoMemory>
    requires function { function < length image.now.functions }
    requires walks { AreKept image.now walks.old.kept.items }
    ensures finding { IfOk result (λ finding. finding ≡ function_finding image.now.words frame.now (slice_get image.now.functions function)) }
    ensures sequence { IfOk result (λ finding. (cost : ℕ) → finding ≡ Optimal cost → IsSequence frame.now.seq) }
    ensures kept { AreKept image.now walks.new.kept.items }
{
    match walks.kept(function) {
        Some(walked) => check_walked(alloc, frame, walked),
        None => {
            let walked = Walked::of(alloc, image, function)?;
            check_first(alloc, frame, walks, function, walked)
        }
    }
}

/// What is found of a frame, in a function of the image by its number, where there is one. Only the want of memory is refused.
pub(crate) fn check_frame(
    alloc: Global,
    frame: &CertFrame,
    image: &Image,
    walks: &mut Walks,
    function: Option<u16>,
) -> Result<Finding, NoMemory>
    requires function { IfSome function (λ k. k < length image.now.functions) }
    requires walks { AreKept image.now walks.old.kept.items }
    ensures finding { IfOk result (λ finding. finding ≡ function_finding image.now.words frame.now (option_and_then (slice_get image.now.functions) function)) }
    ensures sequence { IfOk result (λ finding. (cost : ℕ) → finding ≡ Optimal cost → IsSequence frame.now.seq) }
    ensures kept { AreKept image.now walks.new.kept.items }
{
    match function {
        Some(function) => check_function(alloc, frame, image, walks, function),
        None => Ok(Finding::NotInImage),
    }
}
