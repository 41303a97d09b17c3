//! What operators, assignments and calls make of typed operands: ISO 9899:1990 6.2 to 6.4.
//!
//! No scope is known here: each function takes typed trees and gives one, or the rule that they break.
#![tactic(auto)]

mod arguments;
mod operands;
mod pairs;
mod writes;

pub use arguments::{input, output, passed, wrong_count};
pub use operands::{behind, binary, both_true, either_true, negated, number, picked, sized, unary};
pub use writes::{
    address, assigned, assigned_by, indexed, loaded, not_lvalue, stepped_after, stepped_before,
};
