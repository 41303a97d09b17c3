//! Expressions on words. They have no types, and each operator is an operation on words.
use crate::operator::WordOp;
use c_tree::{UnaryOp, VarRef};

/// An expression.
#[derive(Drop)]
#[cycle(expressions)]
pub struct WordExpr {
    pub form: WordForm,
    /// The place of the expression in the source, in bytes.
    pub at: u32,
}

/// What is assigned to, or stepped.
#[derive(Drop)]
#[cycle(expressions)]
pub struct WordTarget {
    pub form: WordTargetForm,
    /// The place of the lvalue in the source, in bytes.
    pub at: u32,
}

/// Where a written word goes.
#[derive(Drop)]
#[cycle(expressions)]
pub enum WordTargetForm {
    /// To the object of a name, which has one cell.
    Named(VarRef),
    /// To the word at an address.
    At(Box<WordExpr>),
}

/// The forms of expressions.
#[derive(Drop)]
#[cycle(expressions)]
pub enum WordForm {
    /// A word. The null pointer is 0.
    Const(u16),
    /// What the object of a name holds.
    Read(VarRef),
    /// The address of a local or static object.
    AddressOf(VarRef),
    /// The word at an address.
    Load(Box<WordExpr>),
    /// An operator on a word.
    Unary {
        op: UnaryOp,
        value: Box<WordExpr>,
    },
    /// An operation on two words.
    Binary {
        op: WordOp,
        left: Box<WordExpr>,
        right: Box<WordExpr>,
    },
    /// `&&`, a word of 0 or 1.
    And {
        left: Box<WordExpr>,
        right: Box<WordExpr>,
    },
    /// `||`, a word of 0 or 1.
    Or {
        left: Box<WordExpr>,
        right: Box<WordExpr>,
    },
    /// `!`, a word of 0 or 1.
    Not(Box<WordExpr>),
    /// `test ? yes : no`.
    Pick {
        test: Box<WordExpr>,
        yes: Box<WordExpr>,
        no: Box<WordExpr>,
    },
    /// `to = value`.
    Assign {
        to: WordTarget,
        value: Box<WordExpr>,
    },
    /// `to op= value`.
    AssignOp {
        op: WordOp,
        to: WordTarget,
        value: Box<WordExpr>,
    },
    /// `++x`, or `--x` where `up` is false.
    StepBefore {
        up: bool,
        to: WordTarget,
    },
    /// `x++`, or `x--` where `up` is false.
    StepAfter {
        up: bool,
        to: WordTarget,
    },
    /// A call.
    Call {
        /// A number of the program's `functions`.
        function: u16,
        /// One for each parameter, evaluated in order.
        args: Vec<WordExpr>,
    },
    /// The next word of an input port.
    In {
        /// Below 16.
        port: u8,
    },
    /// A word to an output port.
    Out {
        /// Below 16.
        port: u8,
        value: Box<WordExpr>,
    },
    /// `left, right`.
    Comma {
        left: Box<WordExpr>,
        right: Box<WordExpr>,
    },
}
