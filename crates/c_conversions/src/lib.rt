//! The kinds of types, what conversions make of typed operands, and the words that constant expressions have: ISO 9899:1990 6.1.2.5, 6.2, 6.3.4
//! and 6.4. No operator and no scope is known here.
#![tactic(auto)]

mod constants;
mod conversions;
mod kinds;

pub use constants::constant;
pub use conversions::{Operand, cast, conversion, given, in_box, null_of, word};
pub use kinds::{
    INT, UNSIGNED, class_of, common, is_void_pointer, pointed, pointer_to, same_kind, same_type,
    starred,
};
