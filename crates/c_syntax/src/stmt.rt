//! Statements of a source, as the grammar has them (docs/LANGUAGE.md, "Grammar").
use crate::decl::Decl;
use crate::expr::Expr;

/// A statement.
#[derive(Drop)]
#[cycle(syntax_statements)]
pub struct Stmt {
    pub kind: StmtKind,
    /// The place of the statement, in bytes.
    pub at: u32,
}

/// What stands between the braces of a switch: labels, and statements that are fallen into.
#[derive(Drop)]
#[cycle(syntax_statements)]
pub enum SwitchPart {
    Case(Expr),
    Default,
    Body(Stmt),
}

/// The kinds of statements.
#[derive(Drop)]
#[cycle(syntax_statements)]
pub enum StmtKind {
    Empty,
    Evaluate(Expr),
    Block {
        declarations: Vec<Decl>,
        statements: Vec<Stmt>,
    },
    Break,
    Continue,
    Return(Option<Expr>),
    Do {
        body: Box<Stmt>,
        test: Expr,
    },
    If {
        test: Expr,
        yes: Box<Stmt>,
    },
    IfElse {
        test: Expr,
        yes: Box<Stmt>,
        no: Box<Stmt>,
    },
    While {
        test: Expr,
        body: Box<Stmt>,
    },
    For {
        first: Option<Expr>,
        test: Option<Expr>,
        third: Option<Expr>,
        body: Box<Stmt>,
    },
    Switch {
        value: Expr,
        parts: Vec<SwitchPart>,
        /// The place of the opening brace, in bytes.
        parts_at: u32,
    },
}
