//! The names of a C source and what is typed by them: expressions, declarators and initialisers.
//!
//! `Scopes` holds the names that are declared at a place. An expression is typed by them, and each declaration adds to them.
#![tactic(auto)]

mod call_arguments;
mod declarations;
mod expressions;
mod file_scope;
mod initialisers;
mod names;

pub use c_names::{Scopes, Static, is_in, is_initialised_twice, is_out, static_number};
pub use call_arguments::word_at;
pub use declarations::{declarator, declare_object};
pub use expressions::{constant_tree, expression, operand};
pub use file_scope::{
    declare_function, declare_parameters, declare_static, defined_parameters, starts, without_type,
};
pub use initialisers::initialiser;
