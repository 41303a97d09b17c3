//! Operators, by their marks.
ghost use Rattle.std.specs.Prelude.{◌≡◌, ◌≢◌, Some, None};
ghost use Rattle.c_syntax.specs.Grammar.{tighter};
ghost use Rattle.c_syntax.specs.Lookahead.{next_mark, mark_start};
ghost use Rattle.c_expressions.specs.declared.operators.Level.TheVariants as levels;
ghost use Rattle.c_expressions.specs.Operators.{level_row, row_at, next_infix, next_assignment, start_step, start_prefix};

use c_syntax::{BinaryOp, PrefixOp, Punct};

/// The ten levels of operators between operands, from the loosest to the tightest.
#[derive(Clone, Copy, PartialEq, Eq)]
pub(crate) enum Level {
    Or,
    And,
    BitOr,
    BitXor,
    BitAnd,
    Equality,
    Relation,
    Shift,
    Sum,
    Product,
}

/// An operator between operands.
#[derive(Clone, Copy, PartialEq, Eq)]
pub(crate) enum Infix {
    Or,
    And,
    Value(BinaryOp),
}

impl Level {
    /// The next tighter level, or none where that is the row `cast`.
    pub(crate) fn tighter(self) -> Option<Level>
        ensures { tighter (level_row self) ≡ Some (row_at result) }
    {
        match self {
            Level::Or => Some(Level::And),
            Level::And => Some(Level::BitOr),
            Level::BitOr => Some(Level::BitXor),
            Level::BitXor => Some(Level::BitAnd),
            Level::BitAnd => Some(Level::Equality),
            Level::Equality => Some(Level::Relation),
            Level::Relation => Some(Level::Shift),
            Level::Shift => Some(Level::Sum),
            Level::Sum => Some(Level::Product),
            Level::Product => None,
        }
    }

    /// The level next looser than one, or than the row `cast` where there is none. `||` has no looser one, and stays.
    pub(crate) fn looser(level: Option<Level>) -> Level
        ensures { level ≢ Some levels.Or → tighter (level_row result) ≡ Some (row_at level) }
    {
        match level {
            None => Level::Product,
            Some(Level::Product) => Level::Sum,
            Some(Level::Sum) => Level::Shift,
            Some(Level::Shift) => Level::Relation,
            Some(Level::Relation) => Level::Equality,
            Some(Level::Equality) => Level::BitAnd,
            Some(Level::BitAnd) => Level::BitXor,
            Some(Level::BitXor) => Level::BitOr,
            Some(Level::BitOr) => Level::And,
            Some(Level::And) => Level::Or,
            Some(Level::Or) => Level::Or,
        }
    }
}

/// The operator between operands that the mark is, and its level.
pub(crate) fn infix_of(mark: Punct) -> Option<(Level, Infix)>
    ensures { result ≡ next_infix (next_mark mark) }
{
    match mark {
        Punct::OrOr => Some((Level::Or, Infix::Or)),
        Punct::AndAnd => Some((Level::And, Infix::And)),
        Punct::Bar => Some((Level::BitOr, Infix::Value(BinaryOp::Or))),
        Punct::Caret => Some((Level::BitXor, Infix::Value(BinaryOp::Xor))),
        Punct::Ampersand => Some((Level::BitAnd, Infix::Value(BinaryOp::And))),
        Punct::EqualEqual => Some((Level::Equality, Infix::Value(BinaryOp::Eq))),
        Punct::NotEqual => Some((Level::Equality, Infix::Value(BinaryOp::Ne))),
        Punct::Less => Some((Level::Relation, Infix::Value(BinaryOp::Lt))),
        Punct::Greater => Some((Level::Relation, Infix::Value(BinaryOp::Gt))),
        Punct::LessEqual => Some((Level::Relation, Infix::Value(BinaryOp::Le))),
        Punct::GreaterEqual => Some((Level::Relation, Infix::Value(BinaryOp::Ge))),
        Punct::ShiftLeft => Some((Level::Shift, Infix::Value(BinaryOp::Shl))),
        Punct::ShiftRight => Some((Level::Shift, Infix::Value(BinaryOp::Shr))),
        Punct::Plus => Some((Level::Sum, Infix::Value(BinaryOp::Add))),
        Punct::Minus => Some((Level::Sum, Infix::Value(BinaryOp::Sub))),
        Punct::Star => Some((Level::Product, Infix::Value(BinaryOp::Mul))),
        Punct::Slash => Some((Level::Product, Infix::Value(BinaryOp::Div))),
        Punct::Percent => Some((Level::Product, Infix::Value(BinaryOp::Rem))),
        _ => None,
    }
}

/// An assignment: `=`, or an operator with `=`.
#[derive(Clone, Copy, PartialEq, Eq)]
pub(crate) enum Assignment {
    Plain,
    With(BinaryOp),
}

/// The assignment that the mark is.
pub(crate) fn assignment_of(mark: Punct) -> Option<Assignment>
    ensures { result ≡ next_assignment (next_mark mark) }
{
    match mark {
        Punct::Assign => Some(Assignment::Plain),
        Punct::PlusAssign => Some(Assignment::With(BinaryOp::Add)),
        Punct::MinusAssign => Some(Assignment::With(BinaryOp::Sub)),
        Punct::StarAssign => Some(Assignment::With(BinaryOp::Mul)),
        Punct::SlashAssign => Some(Assignment::With(BinaryOp::Div)),
        Punct::PercentAssign => Some(Assignment::With(BinaryOp::Rem)),
        Punct::AmpersandAssign => Some(Assignment::With(BinaryOp::And)),
        Punct::BarAssign => Some(Assignment::With(BinaryOp::Or)),
        Punct::CaretAssign => Some(Assignment::With(BinaryOp::Xor)),
        Punct::ShiftLeftAssign => Some(Assignment::With(BinaryOp::Shl)),
        Punct::ShiftRightAssign => Some(Assignment::With(BinaryOp::Shr)),
        _ => None,
    }
}

/// The operator before a cast that the mark is.
pub(crate) fn prefix_of(mark: Punct) -> Option<PrefixOp>
    ensures { result ≡ start_prefix (mark_start mark None) }
{
    match mark {
        Punct::Ampersand => Some(PrefixOp::Address),
        Punct::Star => Some(PrefixOp::Pointed),
        Punct::Plus => Some(PrefixOp::Plus),
        Punct::Minus => Some(PrefixOp::Minus),
        Punct::Tilde => Some(PrefixOp::Complement),
        Punct::Exclamation => Some(PrefixOp::Not),
        _ => None,
    }
}

/// Up for `++`, down for `--`.
pub(crate) fn step_of(mark: Punct) -> Option<bool>
    ensures { result ≡ start_step (mark_start mark None) }
{
    match mark {
        Punct::PlusPlus => Some(true),
        Punct::MinusMinus => Some(false),
        _ => None,
    }
}
