//! The operators of typed expressions.

/// An operator on one integer. `!` is a form of its own.
#[derive(Clone, Copy, PartialEq, Eq)]
pub enum UnaryOp {
    Minus,
    Plus,
    Complement,
}

/// An operator on two values. `&&` and `||` are forms of their own. `Add`, `Sub` and all comparisons take
/// pointers too.
#[derive(Clone, Copy, PartialEq, Eq)]
pub enum BinaryOp {
    Add,
    Sub,
    Mul,
    Div,
    Rem,
    /// `&` on bits.
    And,
    /// `|` on bits.
    Or,
    /// `^` on bits.
    Xor,
    /// `<<`. The value has the type of the left operand, as that of `>>`.
    Shl,
    /// `>>`, which copies the sign of an int.
    Shr,
    Eq,
    Ne,
    Lt,
    Gt,
    Le,
    Ge,
}
