//! Where the words are that a function's code names.
ghost use Rattle.std.specs.Prelude.{◌≡◌, slice_get};
ghost use Rattle.emit_blocks.specs.Places as places;
ghost use Rattle.emit_blocks.specs.Right.{HasWords};

use crate::step::Reach;
use acc_code::AccOperand;
use c_tree::VarRef;

/// The first of the scratch words.
pub(crate) const FIRST_SCRATCH: u16 = 768;

/// Where a scalar of a frame lies.
#[derive(Clone, Copy)]
pub struct ScalarPlace {
    /// The address register that goes over its list, from 2 to 5.
    pub register: u8,
    pub address: u16,
}

/// The addresses of the words that a function's code names. A number that isn't there stands for address 0: code that meets what emission
/// wants has none.
#[derive(Clone, Copy)]
pub struct Site<'a> {
    /// Of the scalars of the function's frame.
    pub scalars: &'a [ScalarPlace],
    /// Of the static objects.
    pub statics: &'a [u16],
    /// Of the function's local objects.
    pub locals: &'a [u16],
    /// Of the parameters of each function of the program.
    pub parameters: &'a [Vec<u16>],
    /// The step by which AR0 moves a register, from 1 to 8. At 1 AR0 isn't used.
    pub step: u8,
}

impl Site<'_> {
    pub(crate) fn reach(&self, operand: AccOperand) -> Reach
        ensures reach { result ≡ places.reach_of (places.places_of self.now) operand }
        ensures words { HasWords result }
    {
        match operand {
            AccOperand::Nothing => Reach::Constant(0),
            AccOperand::Scalar(n) => Reach::Scalar(self.scalar(n)),
            AccOperand::Direct(object) => Reach::Word(self.object(object)),
            AccOperand::Param { function, index } => Reach::Word(self.parameter(function, index)),
            AccOperand::Scratch(n) => Reach::Word(FIRST_SCRATCH + u16::from(n)),
            AccOperand::Number(word) => Reach::Constant(word),
            AccOperand::Address { object, index } => {
                Reach::Constant(self.object(object).wrapping_add(index))
            }
            AccOperand::Pointed => Reach::Pointer,
        }
    }

    fn scalar(&self, n: u8) -> ScalarPlace
        ensures { result ≡ places.scalar_or_zero (slice_get self.now.scalars.now n) }
    {
        match self.scalars.get(usize::from(n)) {
            Some(place) => *place,
            None => ScalarPlace {
                register: 2,
                address: 0,
            },
        }
    }

    fn object(&self, object: VarRef) -> u16
        ensures { result ≡ places.object_address (places.places_of self.now) object }
    {
        match object {
            VarRef::Scalar(_) => 0,
            VarRef::Local(n) => address_in(self.locals, n as usize),
            VarRef::Static(n) => address_in(self.statics, n as usize),
        }
    }

    fn parameter(&self, function: u16, index: u8) -> u16
        ensures { result ≡ places.parameters_in (slice_get (places.places_of self.now).parameters function) index }
    {
        match self.parameters.get(usize::from(function)) {
            Some(addresses) => address_in(addresses, usize::from(index)),
            None => 0,
        }
    }
}

fn address_in(addresses: &[u16], n: usize) -> u16
    ensures { result ≡ places.address_in addresses.now n }
{
    match addresses.get(n) {
        Some(address) => *address,
        None => 0,
    }
}
