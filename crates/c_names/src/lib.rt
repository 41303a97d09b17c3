//! The names that are declared at a place of a C source, and the objects of file scope that some of them stand for.
#![tactic(auto)]

mod scopes;
mod statics;

pub use scopes::{Scopes, is_in, is_out};
pub use statics::{Static, is_initialised_twice, static_number};
