//! The classes of values: ISO 9899:1990 6.1.2.5.

/// Whether a value is there, and whether it's an integer or a pointer.
#[derive(Clone, Copy, PartialEq, Eq)]
pub enum Class {
    Nothing,
    Integer,
    Pointer,
}
