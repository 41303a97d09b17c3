//! What names stand for, and what declares them.
use c_tree::{ScalarType, VarRef};
use word_base::Items;

/// The type of an object.
#[derive(Clone, Copy, PartialEq, Eq)]
pub enum ObjectType {
    /// One cell.
    Single(ScalarType),
    /// An array of so many cells, 1 to 32,767.
    Array { kind: ScalarType, length: u16 },
}

/// The type of a function.
#[derive(Drop)]
pub struct FunctionType {
    /// The type of its value, or `None` for void.
    pub result: Option<ScalarType>,
    /// The types of its parameters.
    pub parameters: Items<ScalarType>,
}

/// What a name stands for.
#[derive(Drop)]
pub enum Meaning {
    Object {
        reference: VarRef,
        object_type: ObjectType,
    },
    Function(FunctionType),
}

/// What a declarator declares.
#[derive(Drop)]
pub enum Declared {
    /// Its type is none.
    Untyped,
    Object(ObjectType),
    Function(FunctionType),
}
