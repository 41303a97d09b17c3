//! Where the blocks of a function stand.
ghost use Rattle.std.specs.Prelude.{◌≡◌, ◌<◌, Some, IfOk, IfErr, length, vec_len};
ghost use Rattle.c25_walk.specs.Places.{places_of};
ghost use Rattle.c25_walk.specs.Walks.{walk_of, IsFault};
ghost use Rattle.lay_profile.specs.Places.{HasBlocks};

use c25_isa::Image;
use c25_walk::{WalkFault, walk};
use std::alloc::Global;

/// For each block of the walk over a function the program address of the instruction of its first listed access, in the
/// order of the blocks. The function is the one of this number among the ranges of the image, from 0. The faults are
/// those of the walk; `NoMemory` may come at any words.
pub fn places(alloc: Global, image: &Image, function: u16) -> Result<Vec<u16>, WalkFault>
    requires { function < length image.now.functions }
    ensures places { IfOk result (λ places. places_of image.now function ≡ Some places.items) }
    ensures one_each { IfOk result (λ places. HasBlocks image.now function (vec_len places)) }
    // A fault is the one that the walk comes to, unless memory is wanting.
    ensures fault { IfErr result (IsFault (walk_of image.now function)) }
{
    let report = walk(alloc, image, function)?;
    Ok(report.places)
}
