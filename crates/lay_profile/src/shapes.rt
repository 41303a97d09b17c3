//! Whether an image has the shape of a program's functions.
ghost use Rattle.std.specs.Prelude.{◌≡◌, ◌≢◌, ◌↔◌, ◌<◌, ◌≤◌, List, ℕ, IsTrue, Some, map, length, slice_get, All, IfOk, IfErr};
ghost use Rattle.c25_isa.specs.Image.{IsImage};
ghost use Rattle.acc_code.specs.AccSequence.{IsInFrame};
ghost use Rattle.acc_code.specs.AccView.{function_items_of};
ghost use Rattle.cc_compile.specs.image_proof.acc_select_proof.SourceSequences.{at_step};
ghost use Rattle.lay_profile.specs.Shapes.{AreShapes, HasShape};
ghost use Rattle.lay_profile.specs.ShapedFunctions.{IsShaped, AreShaped};
ghost use Rattle.lay_profile.specs.declared.fault.ProfileFault.TheVariants as faults;

use crate::fault::ProfileFault;
use acc_code::{AccFunction, sequence};
use c25_isa::Image;
use c25_walk::{AddressBlock, walk};
use lay_model::Sequence;
use std::alloc::Global;

/// The accesses of a function, and the places of its blocks in an image, one for each, as program addresses.
#[derive(Drop)]
pub(crate) struct Shaped {
    pub(crate) accesses: Sequence,
    pub(crate) places: Vec<u16>,
}

// Whether the functions of an image have the names of these, in order. Each of an image's functions has a word of its own.
fn has_names(image: &Image, functions: &[AccFunction]) -> bool
    ensures same { IsTrue result ↔ (map (λ f. f.name) image.now.functions ≡ map (λ f. f.name) functions.now) }
    ensures few { IsTrue result → length functions.now ≤ 65536 }
    ensures image { IsTrue result → IsImage image.now.words image.now.functions }
{
    let ranges = image.functions();
    if ranges.len() != functions.len() || functions.len() > image.words().len() {
        return false;
    }
    for (index, function) in functions.iter().enumerate() {
        if ranges[index].name.as_str() != function.name.as_str() {
            return false;
        }
    }
    true
}

// Whether the blocks of a walk are as long as those of a sequence.
fn has_lengths(walked: &[AddressBlock], accesses: &Sequence) -> bool
    ensures { IsTrue result ↔ (map length walked.now ≡ map (λ b. length b.accesses) accesses.now.blocks) }
{
    let blocks = accesses.blocks();
    if walked.len() != blocks.len() {
        return false;
    }
    for (index, block) in walked.iter().enumerate() {
        if block.addresses().len() != blocks.accesses(index).len() {
            return false;
        }
    }
    true
}

// The function of this number, where the image has its shape.
fn function_shape(
    alloc: Global,
    image: &Image,
    number: u16,
    function: &AccFunction,
) -> Result<Shaped, ProfileFault>
    requires number { number < length image.now.functions }
    requires in_frame { IsInFrame (function_items_of function.now) }
    ensures shaped { IfOk result (IsShaped image.now number (function_items_of function.now)) }
    ensures other { IfErr result (λ why. why ≢ faults.NoMemory → why ≡ faults.OtherSource) }
    ensures not_shaped { IfErr result (λ why. why ≢ faults.NoMemory → ¬ HasShape image.now number (at_step 1 (function_items_of function.now))) }
{
    let accesses = sequence(alloc, function)?;
    let report = walk(alloc, image, number)?;
    if !has_lengths(&report.blocks, &accesses) {
        return Err(ProfileFault::OtherSource);
    }
    Ok(Shaped {
        accesses,
        places: report.places,
    })
}

/// The functions, where the image has the shape of them all; else it is that of another source.
pub(crate) fn all_shaped(
    alloc: Global,
    image: &Image,
    functions: &[AccFunction],
) -> Result<Vec<Shaped>, ProfileFault>
    requires in_frames { All (λ f. IsInFrame (function_items_of f)) functions.now }
    ensures shapes { IfOk result (λ all. AreShapes image.now (map (λ f. f.name) functions.now) (map (at_step 1) (map function_items_of functions.now))) }
    ensures shaped { IfOk result (λ all. AreShaped image.now (map function_items_of functions.now) all.items) }
    ensures image { IfOk result (λ _. IsImage image.now.words image.now.functions) }
    ensures other { IfErr result (λ why. why ≢ faults.NoMemory → why ≡ faults.OtherSource) }
    ensures not_shaped { IfErr result (λ why. why ≢ faults.NoMemory
        → ¬ AreShapes image.now (map (λ f. f.name) functions.now) (map (at_step 1) (map function_items_of functions.now))) }
{
    if !has_names(image, functions) {
        return Err(ProfileFault::OtherSource);
    }
    let mut all = Vec::new(alloc);
    for (index, function) in functions.iter().enumerate() {
        all.push(function_shape(alloc, image, index as u16, function)?)?;
    }
    Ok(all)
}
