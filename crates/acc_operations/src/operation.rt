//! How the accumulator does an operation on two words.
ghost use Rattle.std.specs.Prelude.{◌≡◌};
ghost use Rattle.acc_operations.specs.Kinds as kinds;

use crate::comparison::{Comparison, Order};
use acc_code::Test;
use tree_code::WordOp;

/// An operation on bits, which has a row for a word of memory and one for a constant.
#[derive(Clone, Copy)]
pub enum Bitwise {
    And,
    Or,
    Xor,
}

/// An operation that gives a word.
#[derive(Clone, Copy)]
pub enum Arithmetic {
    Sum,
    Difference,
    Bits(Bitwise),
    Product,
    LeftShift,
    /// By a constant count in the accumulator, else by a routine.
    RightShift { signed: bool },
    Quotient { signed: bool },
    Remainder { signed: bool },
}

/// An operation on two words.
#[derive(Clone, Copy)]
pub enum Operation {
    Word(Arithmetic),
    Truth(Comparison),
}

fn comparison(order: Order, test: Test) -> Operation
    ensures { result ≡ kinds.comparison order test }
{
    Operation::Truth(Comparison { order, test })
}

pub fn operation_of(op: WordOp) -> Operation
    ensures { result ≡ kinds.operation_of op }
{
    match op {
        WordOp::Add => Operation::Word(Arithmetic::Sum),
        WordOp::Sub => Operation::Word(Arithmetic::Difference),
        WordOp::Mul => Operation::Word(Arithmetic::Product),
        WordOp::DivInt => Operation::Word(Arithmetic::Quotient { signed: true }),
        WordOp::DivUnsigned => Operation::Word(Arithmetic::Quotient { signed: false }),
        WordOp::RemInt => Operation::Word(Arithmetic::Remainder { signed: true }),
        WordOp::RemUnsigned => Operation::Word(Arithmetic::Remainder { signed: false }),
        WordOp::And => Operation::Word(Arithmetic::Bits(Bitwise::And)),
        WordOp::Or => Operation::Word(Arithmetic::Bits(Bitwise::Or)),
        WordOp::Xor => Operation::Word(Arithmetic::Bits(Bitwise::Xor)),
        WordOp::Shl => Operation::Word(Arithmetic::LeftShift),
        WordOp::ShrInt => Operation::Word(Arithmetic::RightShift { signed: true }),
        WordOp::ShrUnsigned => Operation::Word(Arithmetic::RightShift { signed: false }),
        WordOp::Eq => comparison(Order::Exact, Test::Z),
        WordOp::Ne => comparison(Order::Exact, Test::Nz),
        WordOp::LtInt => comparison(Order::Signed, Test::Lz),
        WordOp::LtUnsigned => comparison(Order::Unsigned, Test::Lz),
        WordOp::GtInt => comparison(Order::Signed, Test::Gz),
        WordOp::GtUnsigned => comparison(Order::Unsigned, Test::Gz),
        WordOp::LeInt => comparison(Order::Signed, Test::Lez),
        WordOp::LeUnsigned => comparison(Order::Unsigned, Test::Lez),
        WordOp::GeInt => comparison(Order::Signed, Test::Gez),
        WordOp::GeUnsigned => comparison(Order::Unsigned, Test::Gez),
    }
}
