//! What a command answers that isn't refused.

/// What is put, where something is, and the status where all of it is put.
#[derive(Drop)]
pub struct Answer {
    pub text: Option<Vec<u8>>,
    pub status: u8,
}
