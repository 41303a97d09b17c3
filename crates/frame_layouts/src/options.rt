//! What a command chooses.

/// How frames are laid out.
#[derive(Clone, Copy, PartialEq, Eq)]
pub struct Options {
    /// Over how many address registers, from 1 to 4.
    pub registers: u8,
    /// By how much AR0 moves another register, from 1 to 8. A move by 1 needs no AR0.
    pub step: u8,
    /// How many nodes a frame's search may visit, from 1 to 1,000,000.
    pub budget: u32,
}
