//! A gate at the pieces of a parallel search.

/// Sees where a piece begins and ends, by its number. A gate has no meaning: it lets a test see that two pieces are under
/// way.
pub trait Gate {
    fn enter(&self, piece: u32);

    fn leave(&self, piece: u32);
}

/// A gate that does nothing.
#[derive(Clone, Copy, Default, PartialEq, Eq)]
pub struct OpenGate;

impl Gate for OpenGate {
    fn enter(&self, _piece: u32) {}

    fn leave(&self, _piece: u32) {}
}
