//! The laws that code has at most as many words as it weighs, that no translation raises a weight, and that a typed program weighs by the nodes of
//! its source: at most 64 for each that counts for the size of the code. It has no code.
#![tactic(auto)]

mod node_laws;
mod size_laws;

pub use node_laws::programs_weigh_by_nodes;
pub use size_laws::code_fits_its_weight;
