//! Programs on words.
ghost use Rattle.std.specs.Prelude.{map};
ghost use Rattle.c_tree.specs.View.{object_of};
ghost use Rattle.tree_code.specs.WordTree.{code};
ghost use Rattle.tree_code.specs.WellFormedCode.{IsCode};
ghost use Rattle.tree_code.specs.WordView.{function_code_of};

use crate::word_statement::WordStmt;
use c_tree::{Object, VarRef};
use word_base::{Items, Text};

/// A function with its body.
#[derive(Drop)]
pub struct TreeFunction {
    pub name: Text,
    /// How many scalars its frame has: those of the source's function, and behind them its temporaries.
    pub scalars: u8,
    /// The parameters in order, each a `Scalar` or a `Local` of one cell.
    pub params: Items<VarRef>,
    pub locals: Items<Object>,
    pub body: WordStmt,
}

/// A whole program. A run begins at the function `main`.
#[derive(Drop)]
pub struct TreeProgram {
    pub statics: Items<Object>,
    pub functions: Items<TreeFunction>,
    /// References are in range, each call has one argument for each parameter, no function calls itself through any chain, and
    /// ports, labels, jumps, objects and limits are as in a `Program`.
    pub ghost well_formed: { ∥ IsCode (code (map object_of statics) (map function_code_of functions)) ∥₁ },
}
