//! What a typed tree uses beside its values.
use crate::program::VarRef;

/// An address that is taken, a function that is called, or the size of a switch.
#[derive(Clone, Copy, PartialEq, Eq)]
pub enum Use {
    /// The address of what a name stands for is taken.
    Address(VarRef),
    /// A function is called, at a place in bytes.
    Call { function: u16, at: u32 },
    /// A switch has so many cases.
    Cases(usize),
}
