//! What is wanted of typed functions once all of a source is typed: ISO 9899:1990 6.7, and the limits of docs/LANGUAGE.md, "Types".
//!
//! What their statements use and how many temporaries they need, which of their objects are frame scalars, which function is the
//! first that reaches itself by calls, and what of all that the whole source lacks or has too much of.
#![tactic(auto)]

mod calls;
mod components;
mod frames;
mod functions;
mod recursion;
mod renumber;
mod temporaries;
mod uses;
mod whole;

pub use functions::{TypedFunction, function_of};
pub use whole::frames_of;
