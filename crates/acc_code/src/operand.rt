//! What accumulator code works on.
use c_tree::VarRef;

/// An operand.
#[derive(Clone, Copy, PartialEq, Eq)]
pub enum AccOperand {
    /// None, for an operation on the accumulator alone.
    Nothing,
    /// A scalar of the active function's frame, temporaries among them.
    Scalar(u8),
    /// The first word of a static or local object, never of a scalar.
    Direct(VarRef),
    /// A parameter of a function that is about to be called: its number of the program's functions, and the parameter's number.
    Param { function: u16, index: u8 },
    /// A word that keeps what is stored to it up to the end of a run of operations. Below 15.
    Scratch(u8),
    /// A constant.
    Number(u16),
    /// The address of a cell of a static or local object, or of the place behind its last.
    Address { object: VarRef, index: u16 },
    /// The word at the address that `AccOp::Point` took last.
    Pointed,
}

/// The routines for what the machine has no row for. Each takes its left operand from scratch word 0 and its right one from scratch word 1,
/// and leaves the result in the accumulator.
#[derive(Clone, Copy, PartialEq, Eq)]
pub enum HelperName {
    DivInt,
    DivUnsigned,
    RemInt,
    RemUnsigned,
    ShrInt,
    ShrUnsigned,
}
