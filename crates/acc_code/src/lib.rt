//! Accumulator code: a program between the word trees and the machine's instructions. Its rows work on the accumulator and on operands
//! that have no address yet, and its control flow is still a tree.
//!
//! `sequence` gives the accesses of a function's scalars, block by block.
#![tactic(auto)]

mod accesses;
mod item;
mod operand;
mod operation;
mod program;

pub use accesses::sequence;
pub use item::{AccItem, CaseLabel};
pub use operand::{AccOperand, HelperName};
pub use operation::{AccOp, Test};
pub use program::{AccFunction, AccProgram};
