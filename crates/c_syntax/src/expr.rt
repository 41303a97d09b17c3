//! Expressions of a source, as the grammar has them (docs/LANGUAGE.md, "Grammar").
//!
//! Each node has its place: the byte offset of its own first token. So the sum in `(a) + b` stands at the parenthesis, and
//! `a` stands at `a`. Parentheses make no node.
use crate::operator::BinaryOp;
use crate::syntax::{PrefixOp, SpecWord};
use word_base::{Items, Text};

/// The words of a type, one or more, in the order in which they are written.
#[derive(Drop)]
pub struct Specs {
    pub words: Items<SpecWord>,
    /// The place of the first one, in bytes.
    pub at: u32,
}

/// A type with its stars, as a cast and `sizeof` have it.
#[derive(Drop)]
pub struct TypeName {
    pub specs: Specs,
    pub stars: u32,
}

/// An expression.
#[derive(Drop)]
#[cycle(syntax)]
pub struct Expr {
    pub kind: ExprKind,
    /// The place of the expression, in bytes.
    pub at: u32,
}

/// The kinds of expressions.
#[derive(Drop)]
#[cycle(syntax)]
pub enum ExprKind {
    Name(Text),
    /// An integer constant, with what its token says of it.
    Number {
        value: u32,
        unsigned_mark: bool,
        decimal: bool,
    },
    /// A character constant.
    Char(u16),
    /// `operand[index]`
    Index {
        operand: Box<Expr>,
        index: Box<Expr>,
    },
    /// `name(arguments)`
    Call {
        name: Text,
        arguments: Vec<Expr>,
    },
    /// `operand++`, or `operand--` where `up` is false.
    StepAfter {
        up: bool,
        operand: Box<Expr>,
    },
    /// `++operand`, or `--operand` where `up` is false.
    StepBefore {
        up: bool,
        operand: Box<Expr>,
    },
    Prefix {
        op: PrefixOp,
        operand: Box<Expr>,
    },
    /// `sizeof operand`
    SizeofValue(Box<Expr>),
    /// `sizeof (type)`
    SizeofType(TypeName),
    /// `(type)operand`
    Cast {
        to: TypeName,
        operand: Box<Expr>,
    },
    Binary {
        op: BinaryOp,
        left: Box<Expr>,
        right: Box<Expr>,
    },
    /// `left && right`
    And {
        left: Box<Expr>,
        right: Box<Expr>,
    },
    /// `left || right`
    Or {
        left: Box<Expr>,
        right: Box<Expr>,
    },
    /// `test ? yes : no`
    Conditional {
        test: Box<Expr>,
        yes: Box<Expr>,
        no: Box<Expr>,
    },
    /// `left = right`
    Assign {
        left: Box<Expr>,
        right: Box<Expr>,
    },
    /// `left op= right`, with one of the first ten operators.
    AssignOp {
        op: BinaryOp,
        left: Box<Expr>,
        right: Box<Expr>,
    },
    /// `left, right`
    Comma {
        left: Box<Expr>,
        right: Box<Expr>,
    },
}
