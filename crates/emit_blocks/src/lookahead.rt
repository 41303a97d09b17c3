//! What the steps that are still to come want of address registers. Each search ends at the next access.
ghost use Rattle.std.specs.Prelude.{◌≡◌, ◌<◌};
ghost use Rattle.emit_blocks.specs.Moves as moves;

use crate::step::{Reach, Step};
use c25_isa::Change;

impl Reach {
    // The address through a register.
    fn address_through(self, register: u8) -> Option<u16>
        ensures { result ≡ moves.address_for register self None }
    {
        match self {
            Reach::Scalar(place) if place.register == register => Some(place.address),
            _ => None,
        }
    }

    fn register(self) -> Option<u8>
        ensures { result ≡ moves.register_for self None }
    {
        match self {
            Reach::Scalar(place) => Some(place.register),
            Reach::Pointer => Some(1),
            Reach::Word(_) | Reach::Constant(_) => None,
        }
    }
}

/// The address that a register has to hold next.
pub(crate) fn next_address(register: u8, steps: &[Step]) -> Option<u16>
    ensures { result ≡ moves.next_address register steps.now }
{
    let mut rest = steps;
    while let Some((step, behind)) = rest.split_first() {
        if let Some(address) = step.reach.address_through(register) {
            return Some(address);
        }
        rest = behind;
    }
    None
}

/// The register that is needed next.
pub(crate) fn next_register(steps: &[Step]) -> Option<u8>
    ensures { result ≡ moves.next_register steps.now }
{
    let mut rest = steps;
    while let Some((step, behind)) = rest.split_first() {
        if let Some(register) = step.reach.register() {
            return Some(register);
        }
        rest = behind;
    }
    None
}

/// The change by which an access at an address brings its register to the next one, by 1, or by the step where that is more.
pub(crate) fn change_to(step: u8, address: u16, next: Option<u16>) -> Change
    ensures { result ≡ moves.change_to step address next }
{
    let Some(next) = next else {
        return Change::Stay;
    };
    let (here, there, step) = (u32::from(address), u32::from(next), u32::from(step));
    if there == here + 1 {
        Change::Up
    } else if here == there + 1 {
        Change::Down
    } else {
        change_by_index(step, here, there)
    }
}

fn change_by_index(step: u32, here: u32, there: u32) -> Change
    requires here { here < 65536 }
    requires there { there < 65536 }
    requires step { step < 256 }
    ensures { result ≡ moves.change_by_index step here there }
{
    if step <= 1 {
        Change::Stay
    } else if there == here + step {
        Change::UpIndex
    } else if here == there + step {
        Change::DownIndex
    } else {
        Change::Stay
    }
}

fn is_by_index(change: Change) -> bool
    ensures { result ≡ moves.is_by_index change }
{
    matches!(change, Change::UpIndex | Change::DownIndex)
}

/// Whether some access is left by AR0.
pub(crate) fn moves_by_index(index: u8, steps: &[Step]) -> bool
    ensures { result ≡ moves.moves_by_index index steps.now }
{
    let mut rest = steps;
    while let Some((step, behind)) = rest.split_first() {
        if is_by_index(change_of_step(index, step.reach, behind)) {
            return true;
        }
        rest = behind;
    }
    false
}

fn change_of_step(index: u8, reach: Reach, behind: &[Step]) -> Change
    ensures { result ≡ moves.change_of_step index reach behind.now }
{
    match reach {
        Reach::Scalar(place) => change_to(
            index,
            place.address,
            next_address(place.register, behind),
        ),
        _ => Change::Stay,
    }
}
