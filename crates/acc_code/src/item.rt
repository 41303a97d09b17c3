//! The items of accumulator code.
use crate::operand::{AccOperand, HelperName};
use crate::operation::{AccOp, Test};
use c_tree::VarRef;

/// A label of a switch.
#[derive(Clone, Copy, PartialEq, Eq)]
pub enum CaseLabel {
    Value(u16),
    Default,
}

/// An item.
#[derive(Drop)]
#[cycle(items)]
pub enum AccItem {
    Op {
        op: AccOp,
        operand: AccOperand,
    },
    /// Runs one of two lists. The accumulator isn't kept.
    If {
        test: Test,
        yes: Vec<AccItem>,
        no: Vec<AccItem>,
    },
    /// Runs `before`, then, as a turn, `body` and `after`, again and again, until a `Break` in one of them or a `Return`.
    Loop {
        before: Vec<AccItem>,
        /// A `Continue` here goes on with `after`.
        body: Vec<AccItem>,
        after: Vec<AccItem>,
        /// Whether the source's test stands in `after`.
        test_last: bool,
    },
    /// Goes on at the `Case` of the label that the accumulator equals, else at that of `Default`, else behind the switch.
    Switch {
        cases: Vec<CaseLabel>,
        body: Vec<AccItem>,
    },
    /// Where the label of this number of the innermost switch stands.
    Case(u16),
    /// Writes 0 into the cells of a local array from cell `from` on.
    Clear {
        object: VarRef,
        from: u16,
    },
    /// Calls a function, by its number of the program's functions. Its parameters have been stored.
    Call {
        function: u16,
    },
    Helper(HelperName),
    Break,
    Continue,
    Return,
}
