//! Tests that need values: a shelf and a sink whose calls fail, real files, images and tokens that are read and written, and
//! machines that go on. All other cases are data, of the program `c_cases` and of `tests/program.sh`.
#![tactic(auto)]

#[cfg(test)]
mod commands;
#[cfg(test)]
mod expansions;
#[cfg(test)]
mod failing_builds;
#[cfg(test)]
mod failing_profiles;
#[cfg(test)]
mod failing_runs;
#[cfg(test)]
mod failing_sessions;
#[cfg(test)]
mod images;
#[cfg(test)]
mod joins;
#[cfg(test)]
mod machines;
#[cfg(test)]
mod system;
#[cfg(test)]
mod tokens;
#[cfg(test)]
mod words;
