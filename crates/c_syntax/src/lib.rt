//! A C source as tokens and as a syntax tree.
//!
//! The folder `specs` says which tokens a text has: it is blanks and spellings, one behind another. It says which tree
//! tokens have by each row of the grammar, and how high and how large a tree is. A text has at most one list of tokens,
//! and tokens have at most one tree.
#![tactic(auto)]

mod decl;
mod expr;
mod laws;
mod limits;
mod operator;
mod stmt;
mod syntax;
mod token;
mod unit;

pub use decl::{Brackets, Decl, Init, Item, ItemKind, Param, Params};
pub use expr::{Expr, ExprKind, Specs, TypeName};
pub use laws::{functions_have_names, one_token_list, one_tree, trees_are_small};
pub use limits::{GREATEST_HEIGHT, MOST_NODES, MOST_TOKENS};
pub use operator::{BinaryOp, UnaryOp};
pub use stmt::{Stmt, StmtKind, SwitchPart};
pub use syntax::{PrefixOp, SpecWord};
pub use token::{Keyword, Punct, Token, TokenKind};
pub use unit::{External, FunctionDef, Unit};
pub use word_base::{Items, Text, UndefinedKind, div_trunc, signed, wrap16};
