//! The law that lowering keeps what typed programs do, with objects of typed programs beside words at addresses, as definitions. It has no code.
#![tactic(auto)]

mod laws;

pub use laws::{addresses_tell_pointers, lowering_keeps_runs};
