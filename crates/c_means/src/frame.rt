//! What a function's body runs with.
ghost use Rattle.std.specs.Prelude.{map, All};
ghost use Rattle.c_state.specs.Room.{HasRoom};
ghost use Rattle.c_tree.specs.View.{object_of};

use c_tree::{Function, Program};
use std::alloc::Global;

/// What stays the same while the body of a function runs.
#[derive(Clone, Copy)]
pub(crate) struct Run<'a> {
    pub(crate) alloc: Global,
    pub(crate) program: &'a Program,
    pub(crate) function: &'a Function,
    /// How many turns each execution of a loop may make.
    pub(crate) turns: u32,
    /// How deep calls may still be nested.
    pub(crate) depth: usize,
    /// Its local arrays have room for their lists.
    ghost room: { ∥ All HasRoom (map object_of function.now.locals) ∥₁ },
}
