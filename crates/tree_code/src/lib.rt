//! Word trees: a typed program whose operations are chosen by type, on words alone.
//!
//! `lower` makes one of a `Program`. The folder `specs` says which tree that is, case by case.
#![tactic(auto)]

mod copies;
mod counting;
mod expressions;
mod laws;
mod lowering;
mod operator;
mod program;
mod statements;
mod word_expression;
mod word_statement;

pub use c_tree::{Base, Initial, Object, Program, ScalarType, UnaryOp, VarRef};
pub use counting::{is_constant, temporaries};
pub use laws::kept_by_lowering;
pub use lowering::lower;
pub use operator::WordOp;
pub use program::{TreeFunction, TreeProgram};
pub use word_expression::{WordExpr, WordForm, WordTarget, WordTargetForm};
pub use word_statement::{WordChoice, WordStmt};
