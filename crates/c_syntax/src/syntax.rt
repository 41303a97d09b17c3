//! The words and operators of syntax trees.

/// A word of a type, or `static` before it.
#[derive(Clone, Copy, PartialEq, Eq)]
pub enum SpecWord {
    Static,
    Void,
    Char,
    Short,
    Int,
    Signed,
    Unsigned,
}

/// An operator before one operand. `sizeof`, `++` and `--` are forms of their own.
#[derive(Clone, Copy, PartialEq, Eq)]
pub enum PrefixOp {
    /// `&`.
    Address,
    /// `*`.
    Pointed,
    Plus,
    Minus,
    /// `~`.
    Complement,
    /// `!`.
    Not,
}
