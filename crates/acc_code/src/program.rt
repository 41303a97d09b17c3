//! Programs of accumulator code.
use crate::item::AccItem;
use word_base::{Items, Text};

/// A function.
#[derive(Drop)]
pub struct AccFunction {
    pub name: Text,
    /// How many scalars its frame has, temporaries among them.
    pub scalars: u8,
    pub body: Items<AccItem>,
}

/// A whole program. A run begins at the function `main`.
#[derive(Drop)]
pub struct AccProgram {
    pub functions: Items<AccFunction>,
}
