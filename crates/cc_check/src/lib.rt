//! Checks of program images against certificates: whether the words of each function are what its frame says of them.
#![tactic(auto)]

mod addresses;
mod blocks;
mod checking;
mod finding;
mod frames;
mod laws;
mod lines;
mod numbers;
mod walks;

pub use checking::{Checked, check};
pub use finding::Finding;
pub use laws::optimal_means;
pub use lay_cert::write_cert;
