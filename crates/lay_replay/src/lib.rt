//! The replay of a log: whether it shows that no layout costs less than a number. The marks are read once, in order, while the numbers that bounds need are kept
//! up to date on the way down the tree and up again. It knows neither the language nor the machine.
#![tactic(auto)]

mod checks;
mod log_replay;
mod verdict;
mod walk;

pub use log_replay::LogReplay;
pub use verdict::LogVerdict;
