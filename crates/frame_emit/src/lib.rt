//! Emission: the pieces of a program of accumulator code, by a plan of data memory and an arrangement of each frame.
//!
//! `emit` computes the pieces that the folder `specs` gives: the startup, and one for each function.
#![tactic(auto)]

mod code;
mod emission;
mod frames;
mod initials;
mod laws;
mod pieces;
mod startup;

pub use emission::emit;
pub use laws::{pieces_are_right, plans_are_enough};
