//! What a condition chooses between.
use acc_code::AccItem;

/// What is done where a condition holds, or where it doesn't.
#[derive(Drop)]
pub(crate) enum Part {
    /// It may stand twice.
    Short(ShortPart),
    Runs(Vec<AccItem>),
}

/// A part that is short enough to stand twice.
#[derive(Clone, Copy)]
pub(crate) enum ShortPart {
    Nothing,
    /// The number 1 is loaded.
    One,
    /// The number 0 is loaded.
    Null,
    Break,
    Continue,
}
