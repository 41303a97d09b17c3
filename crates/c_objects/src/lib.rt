//! The types of what is declared, and its first values: ISO 9899:1990 6.5.
//!
//! The words of types, what declarators make of them, whether two declarations of a name agree, and the values of initialised
//! objects. No scope is known here.
#![tactic(auto)]

mod agreement;
mod boxes;
mod declarators;
mod first_values;
mod type_words;

pub use agreement::{agrees_function, agrees_object};
pub use boxes::{add, boxed};
pub use declarators::{
    array, lacks_name, length_within, listed_length, parameter_kind, redeclared, single,
};
pub use first_values::{Entry, Initialiser, Start, Starts, initial_word, started, static_list};
pub use type_words::{is_null, plain, spelled, type_named};
