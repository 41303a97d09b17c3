//! What is known of the high half of the accumulator.

/// What is known of it where the low half is a word.
#[derive(Clone, Copy)]
pub enum HighHalf {
    /// Nothing.
    Any,
    /// It is 0.
    Zero,
    /// It is the sign of the low half.
    Sign,
    /// Both: the word is below 8000h.
    Small,
}
