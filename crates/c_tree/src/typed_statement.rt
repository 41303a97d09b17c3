//! Typed statements.
use crate::program::VarRef;
use crate::typed_expression::TypedExpr;

/// What stands in a switch, in order: labels, and statements that are fallen into.
#[derive(Drop)]
#[cycle(statements)]
pub enum Choice {
    /// A label for this word, which was converted to the type of the switch's value.
    Case(u16),
    Default,
    Body(TypedStmt),
}

/// A statement. An empty statement is a `Block` without names and without a body.
#[derive(Drop)]
#[cycle(statements)]
pub enum TypedStmt {
    Block {
        /// The scalars and local objects that the block declares. They are new at each entry of the block, and
        /// end with it.
        declared: Vec<VarRef>,
        /// Its statements, with an assignment for each initialiser of a scalar.
        body: Vec<TypedStmt>,
    },
    /// Gives an initialised local array its list, at the place of its declaration: a number of the function's
    /// `locals`.
    Fill(u32),
    /// An expression whose value isn't used.
    Expr(TypedExpr),
    /// An absent else is an empty statement.
    If {
        test: TypedExpr,
        yes: Box<TypedStmt>,
        no: Box<TypedStmt>,
    },
    While {
        test: TypedExpr,
        body: Box<TypedStmt>,
    },
    Do {
        body: Box<TypedStmt>,
        test: TypedExpr,
    },
    /// The values of `first` and `third` aren't used. An absent `test` is true.
    For {
        first: Option<TypedExpr>,
        test: Option<TypedExpr>,
        third: Option<TypedExpr>,
        body: Box<TypedStmt>,
    },
    /// The value is an integer. The cases differ, and there is at most one default.
    Switch {
        value: TypedExpr,
        choices: Vec<Choice>,
    },
    /// Leaves the innermost loop or switch.
    Break,
    /// Ends the turn of the innermost loop, also from within a switch.
    Continue,
    /// Leaves the function, with a value where the function isn't void.
    Return(Option<TypedExpr>),
}
