//! The layout from which a search begins. It knows neither the language nor the machine.
#![tactic(auto)]

mod edges;
mod lists;
mod paths;
mod spread;
mod starting;

pub use starting::greedy;
