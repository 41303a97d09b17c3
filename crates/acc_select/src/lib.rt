//! Selection: the accumulator code of word trees.
//!
//! `select` computes the code that the folder `specs` gives form by form.
#![tactic(auto)]

mod cells;
mod code;
mod conditions;
mod expressions;
mod forms;
mod part;
mod selection;
mod statements;

pub use acc_code::{
    AccFunction, AccItem, AccOp, AccOperand, AccProgram, CaseLabel, HelperName, Test, sequence,
};
pub use selection::select;
