//! The steps of a run: an instruction each, whose operand has no form yet.
use crate::site::ScalarPlace;
use acc_code::AccOp;

/// How a step reaches what it works on.
#[derive(Clone, Copy)]
pub enum Reach {
    /// Through the register of a scalar's list.
    Scalar(ScalarPlace),
    /// Through AR1, at the address that it holds.
    Pointer,
    /// By a direct operand, at an address.
    Word(u16),
    /// Not at all: it works on a constant, or on the accumulator alone.
    Constant(u16),
}

/// A row, and how it reaches what it works on. `AccOp::Point` stands here for a load of AR1.
#[derive(Clone, Copy)]
pub struct Step {
    pub row: AccOp,
    pub reach: Reach,
}
