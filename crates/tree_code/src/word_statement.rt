//! Statements on words.
use crate::word_expression::WordExpr;
use c_tree::VarRef;

/// What stands in a switch, in order: labels, and statements that are fallen into.
#[derive(Drop)]
#[cycle(statements)]
pub enum WordChoice {
    Case(u16),
    Default,
    Body(WordStmt),
}

/// A statement.
#[derive(Drop)]
#[cycle(statements)]
pub enum WordStmt {
    Block {
        /// The scalars and local objects that the block declares.
        declared: Vec<VarRef>,
        body: Vec<WordStmt>,
    },
    /// Gives an initialised local array its list: a number of the function's `locals`.
    Fill(u32),
    /// An expression whose value isn't used.
    Expr(WordExpr),
    /// An absent else is an empty statement.
    If {
        test: WordExpr,
        yes: Box<WordStmt>,
        no: Box<WordStmt>,
    },
    While {
        test: WordExpr,
        body: Box<WordStmt>,
    },
    Do {
        body: Box<WordStmt>,
        test: WordExpr,
    },
    /// The values of `first` and `third` aren't used. An absent `test` is true.
    For {
        first: Option<WordExpr>,
        test: Option<WordExpr>,
        third: Option<WordExpr>,
        body: Box<WordStmt>,
    },
    Switch {
        value: WordExpr,
        choices: Vec<WordChoice>,
    },
    Break,
    Continue,
    Return(Option<WordExpr>),
}
