//! Walks over the words of a function.
ghost use Rattle.std.specs.Prelude.{◌≡◌, ◌+◌, ◌<◌, ◌≤◌, Some, None, All, IfOk, IfErr, length, slice_get, vec_len};
ghost use Rattle.c25_isa.specs.Image.{IsImage};
ghost use Rattle.c25_isa.specs.Walk.{Blocks, code_from, walk_code};
ghost use Rattle.c25_walk.specs.Places.{places_in, places_of};
ghost use Rattle.c25_walk.specs.Marks.{AreMarked, IsInTable, targets_of};
ghost use Rattle.c25_walk.specs.Walking.{started, behind_all, cut_off, first_unknown, IsUnknown};
ghost use Rattle.c25_walk.specs.Walks.{walk_of, count_of, count_in, IsFault, IsInside};

use crate::code::{Placed, decode_range};
use crate::fault::WalkFault;
use crate::report::WalkReport;
use crate::targets::Targets;
use crate::walker::Walker;
use c25_isa::{FunctionRange, Image};
use std::alloc::Global;

// The range of a function.
fn range_of(image: &Image, function: u16) -> &FunctionRange
    requires { function < length image.now.functions }
    ensures range { slice_get image.now.functions function ≡ Some result.now }
    ensures inside { IsImage image.now.words image.now.functions → IsInside (length image.now.words) result.now }
{
    &image.functions()[usize::from(function)]
}

// The address of a function's first word, and its words.
fn function_words(image: &Image, function: u16) -> (u16, &[u16])
    requires { function < length image.now.functions }
    ensures fits { result.0 + length result.1.now ≤ 65536 }
    ensures walk { walk_of image.now function ≡ Some (walk_code (code_from result.0 0 result.1.now)) }
    ensures places { places_of image.now function ≡ Some (places_in (code_from result.0 0 result.1.now)) }
    ensures count { count_of image.now function ≡ Some (count_in (code_from result.0 0 result.1.now)) }
{
    let words = image.words();
    let range = range_of(image, function);
    let (first, last) = (usize::from(range.first), usize::from(range.last));
    (range.first, &words[first..last + 1])
}

// Walks over the instructions of a range along its stretches.
fn walk_along(alloc: Global, code: &[Placed], targets: &Targets) -> Result<WalkReport, WalkFault>
    requires few { length code.now ≤ 65536 }
    requires marked { AreMarked targets.now.first targets.now.marks.items (targets_of code.now) }
    requires within { All (IsInTable targets.now.first (vec_len targets.now.marks)) code.now }
    ensures known { IfOk result (λ _. first_unknown (targets_of code.now) started code.now ≡ None) }
    ensures listed { IfOk result (λ report. report.blocks.items ≡ (cut_off (behind_all (targets_of code.now) started code.now)).blocks) }
    ensures places { IfOk result (λ report. report.places.items ≡ (behind_all (targets_of code.now) started code.now).places) }
    ensures count { IfOk result (λ report. report.count ≡ (behind_all (targets_of code.now) started code.now).count) }
    ensures fault { IfErr result (IsUnknown (first_unknown (targets_of code.now) started code.now)) }
{
    let mut walker = Walker::new(alloc);
    for placed in code {
        walker.walk_over(placed)?;
        if targets.is_cut_behind(placed) {
            walker.cut(alloc)?;
        }
    }
    Ok(walker.finish(alloc)?)
}

/// Walks over the words of a function of the image, in time linear in their number: the function of this number among the ranges of
/// the image, from 0. It answers which words of data memory the function accesses through AR2 to AR5, by stretches, where each of
/// these accesses first, and how many of its instructions do nothing but move an address register. `BadWord` and `UnknownAddress` give the program address of the first
/// faulty word or access; `NoMemory` may come at any words.
pub fn walk(alloc: Global, image: &Image, function: u16) -> Result<WalkReport, WalkFault>
    requires { function < length image.now.functions }
    // The listed addresses are those of the walk.
    ensures blocks { IfOk result (λ report. walk_of image.now function ≡ Some (Blocks report.blocks.items)) }
    // Each block has a place: the address of the instruction of its first listed access.
    ensures places { IfOk result (λ report. places_of image.now function ≡ Some report.places.items) }
    ensures one_each { IfOk result (λ report. vec_len report.places ≡ vec_len report.blocks) }
    // Each address instruction counts once.
    ensures count { IfOk result (λ report. count_of image.now function ≡ Some report.count) }
    // A fault is the one that the walk comes to, unless memory is wanting.
    ensures fault { IfErr result (IsFault (walk_of image.now function)) }
{
    let (first, words) = function_words(image, function);
    let code = decode_range(alloc, words, first)?;
    let targets = Targets::new(alloc, &code.placed, first, words.len())?;
    let report = walk_along(alloc, &code.placed, &targets)?;
    match code.fault {
        Some(at) => Err(WalkFault::BadWord { at }),
        None => Ok(report),
    }
}
