//! What a command chooses.

/// How layouts for a recorded run are searched.
#[derive(Clone, Copy, PartialEq, Eq)]
pub struct ProfileOptions {
    /// Over how many address registers, from 1 to 4.
    pub registers: u8,
    /// How many nodes a frame's search may visit, from 1 to 1,000,000.
    pub budget: u32,
    /// How many steps of the run count, from 1 to 100,000,000.
    pub steps: u64,
}
