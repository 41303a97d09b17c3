//! Where the words of frames are.
ghost use Rattle.std.specs.Prelude.{◌≡◌, ◌<◌, ◌≤◌, length, map, All, IfOk, IfSome, vec_items};
ghost use Rattle.c_tree.specs.View.{object_of};
ghost use Rattle.emit_blocks.specs.Places.{address_in};
ghost use Rattle.emit_blocks.specs.Right.{HaveRegisters};
ghost use Rattle.frame_emit.specs.Frames as spec;
ghost use Rattle.tree_code.specs.WordView.{function_code_of};

use c_tree::{Object, VarRef};
use emit_control::ScalarPlace;
use lay_model::{Arrangement, ScalarList};
use mem_plan::FramePlan;
use std::alloc::Global;
use tree_code::TreeFunction;
use word_base::NoMemory;

/// The address register that goes over the first list.
const FIRST_REGISTER: u8 = 2;

/// The place of a scalar that stands in no list.
const NOWHERE: ScalarPlace = ScalarPlace {
    register: FIRST_REGISTER,
    address: 0,
};

// Where a scalar stands in a list.
#[tactic(auto, using(crate::proofs::Positions::positions))]
fn position_in(list: &[u8], scalar: u8) -> Option<usize>
    ensures position { result ≡ spec.position_in list.now scalar }
    ensures within { IfSome result (λ i. i < length list.now) }
{
    let mut position = 0;
    let mut rest = list;
    while let Some((first, behind)) = rest.split_first() {
        if *first == scalar {
            return Some(position);
        }
        position += 1;
        rest = behind;
    }
    None
}

// Where a scalar lies, and the register of its list.
fn scalar_place(lists: &[ScalarList], bases: &[u16], scalar: u8) -> ScalarPlace
    requires { length lists.now ≤ 4 }
    ensures place { result ≡ spec.scalar_place lists.now bases.now spec.FIRST_REGISTER scalar }
    ensures register { result.register < 8 }
{
    let mut register = FIRST_REGISTER;
    let mut rest = lists;
    let mut starts = bases;
    while let Some((list, behind)) = rest.split_first() {
        let Some((base, others)) = starts.split_first() else {
            return NOWHERE;
        };
        if let Some(position) = position_in(list.scalars(), scalar) {
            let address = ((usize::from(*base) + position) % 0x1_0000) as u16;
            return ScalarPlace { register, address };
        }
        register += 1;
        rest = behind;
        starts = others;
    }
    NOWHERE
}

/// The places of the scalars of a frame, by their numbers.
#[tactic(auto, using(crate::proofs::Positions::one_more_place, crate::proofs::Positions::one_more_register))]
pub(crate) fn scalar_places(
    alloc: Global,
    lists: &[ScalarList],
    bases: &[u16],
    count: u8,
) -> Result<Vec<ScalarPlace>, NoMemory>
    requires { length lists.now ≤ 4 }
    ensures places { IfOk result (λ all. all.items ≡ spec.scalar_places lists.now bases.now 0 count) }
    ensures registers { IfOk result (λ all. HaveRegisters all.items) }
{
    let mut all = Vec::new(alloc);
    for scalar in 0..count {
        all.push(scalar_place(lists, bases, scalar))?;
    }
    Ok(all)
}

/// An address by its number. One that isn't there is 0.
pub(crate) fn address_in(addresses: &[u16], n: u32) -> u16
    ensures { result ≡ address_in addresses.now n }
{
    match addresses.get(n as usize) {
        Some(address) => *address,
        None => 0,
    }
}

fn parameter_address(lists: &[ScalarList], frame: &FramePlan, parameter: VarRef) -> u16
    requires { length lists.now ≤ 4 }
    ensures { result ≡ spec.parameter_address lists.now frame.now parameter }
{
    match parameter {
        VarRef::Scalar(n) => scalar_place(lists, frame.bases.as_slice(), n).address,
        VarRef::Local(n) => address_in(frame.locals.as_slice(), n),
        VarRef::Static(_) => 0,
    }
}

// Where the parameters of a function lie.
fn parameter_addresses(
    alloc: Global,
    lists: &[ScalarList],
    frame: &FramePlan,
    parameters: &[VarRef],
) -> Result<Vec<u16>, NoMemory>
    requires { length lists.now ≤ 4 }
    ensures { IfOk result (λ all. all.items ≡ map (spec.parameter_address lists.now frame.now) parameters.now) }
{
    let mut all = Vec::new(alloc);
    for parameter in parameters {
        all.push(parameter_address(lists, frame, *parameter))?;
    }
    Ok(all)
}

/// Where the parameters of all functions lie.
pub(crate) fn all_parameters(
    alloc: Global,
    functions: &[TreeFunction],
    frames: &[FramePlan],
    arrangements: &[Arrangement],
) -> Result<Vec<Vec<u16>>, NoMemory>
    requires { All (λ lists. length lists ≤ 4) arrangements.now }
    ensures { IfOk result (λ all. map vec_items all.items ≡ spec.all_parameters (map function_code_of functions.now) frames.now arrangements.now) }
{
    let mut all = Vec::new(alloc);
    let mut rest = functions;
    let mut later_frames = frames;
    let mut later_arrangements = arrangements;
    while let Some((function, behind)) = rest.split_first() {
        let Some((frame, frames_behind)) = later_frames.split_first() else {
            return Ok(all);
        };
        let Some((arrangement, arrangements_behind)) = later_arrangements.split_first() else {
            return Ok(all);
        };
        let parameters = function.params.as_slice();
        all.push(parameter_addresses(alloc, arrangement.lists(), frame, parameters)?)?;
        rest = behind;
        later_frames = frames_behind;
        later_arrangements = arrangements_behind;
    }
    Ok(all)
}

/// The lengths of objects, in words.
pub(crate) fn lengths_of(alloc: Global, objects: &[Object]) -> Result<Vec<u16>, NoMemory>
    ensures { IfOk result (λ all. all.items ≡ map (λ o. o.length) (map object_of objects.now)) }
{
    let mut all = Vec::new(alloc);
    for object in objects {
        all.push(object.length)?;
    }
    Ok(all)
}
