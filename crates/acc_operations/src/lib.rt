//! Operations on words in accumulator code: what is appended for each, by what its operands are and where their words are found.
//!
//! Each function appends the items that the folder `specs` gives for it.
#![tactic(auto)]

mod append;
mod arithmetic;
mod bits;
mod comparison;
mod constant;
mod found;
mod high_half;
mod operation;
mod products;
mod sums;

pub use acc_code::{AccItem, AccOp, AccOperand, CaseLabel, HelperName, Test};
pub use append::{bare, lac, op, push, sacl};
pub use arithmetic::{of_constant, of_place, with_constant, with_place};
pub use comparison::{
    Comparison, Order, compared_of_constant, compared_of_place, compared_with_constant,
    compared_with_place, in_sense,
};
pub use constant::{Constant, Shape, initial_constant, load_constant, place_of, shape_of};
pub use found::{Found, SCRATCH_0, load, load_clean, load_signed, load_unsigned, store};
pub use high_half::HighHalf;
pub use operation::{Arithmetic, Bitwise, Operation, operation_of};
