//! Layouts for a recorded run: how often a run of an image enters each block of accesses, and the blocks weighed by
//! that.
#![tactic(auto)]

mod block_places;
mod fault;
mod laws;
mod options;
mod profile;
mod recorded;
mod recording;
mod shapes;
#[cfg(test)]
mod tests;
mod weighing;

pub use block_places::places;
pub use cc_compile::{
    BuildFault, Built, CertFault, Certificate, LinkFault, Options, PlanFault,
    built_functions_differ, compile, runs_tell, sources_within_limits_have_no_fault, typed_program,
};
pub use fault::ProfileFault;
pub use laws::{
    built_images_have_the_shape, full_profile_is_large, one_profile, places_differ,
    shapes_are_short, weighed_costs_the_run, weighed_is_a_sequence,
};
pub use options::ProfileOptions;
pub use profile::{Profiled, profile_build};
pub use recording::entries;
pub use weighing::weigh;
