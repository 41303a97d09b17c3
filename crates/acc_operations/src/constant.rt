//! Constants, and operands that need no code.
ghost use Rattle.std.specs.Prelude.{◌≡◌, OnOk};
ghost use Rattle.acc_code.specs.AccTree.{end, ◌▸◌};
ghost use Rattle.acc_operations.specs.Appended.{Appends};
ghost use Rattle.acc_operations.specs.Constants as constant;
ghost use Rattle.tree_code.specs.WordTree.{Node, Unary};
ghost use Rattle.tree_code.specs.WordView.{word_expr_of};

use crate::append::op;
use crate::high_half::HighHalf;
use acc_code::{AccItem, AccOp, AccOperand};
use c_tree::{Initial, VarRef};
use tree_code::{UnaryOp, WordExpr, WordForm};
use word_base::NoMemory;

/// A constant operand.
#[derive(Clone, Copy)]
pub enum Constant {
    Number(u16),
    /// The address of a cell of an object.
    Address { object: VarRef, index: u16 },
}

/// What an operand is.
#[derive(Clone, Copy)]
pub enum Shape {
    Constant(Constant),
    /// The word of a name.
    Named(AccOperand),
    /// What has to be computed.
    Computed,
}

pub(crate) fn negative(w: u16) -> u16
    ensures { result ≡ constant.negative w }
{
    w.wrapping_neg()
}

/// The word of a name of one cell.
pub fn place_of(v: VarRef) -> AccOperand
    ensures { result ≡ constant.place_of v }
{
    match v {
        VarRef::Scalar(n) => AccOperand::Scalar(n),
        VarRef::Local(_) | VarRef::Static(_) => AccOperand::Direct(v),
    }
}

pub fn shape_of(e: &WordExpr) -> Shape
    ensures { result ≡ constant.shape_of (word_expr_of e.now) }
{
    match &e.form {
        WordForm::Const(w) => Shape::Constant(Constant::Number(*w)),
        WordForm::AddressOf(v) => Shape::Constant(Constant::Address {
            object: *v,
            index: 0,
        }),
        WordForm::Unary { op, value } => shape_of_unary(*op, value, e.at),
        WordForm::Read(v) => Shape::Named(place_of(*v)),
        _ => Shape::Computed,
    }
}

// A minus on a number is a number. `at` is the operator's place.
fn shape_of_unary(op: UnaryOp, value: &WordExpr, at: u32) -> Shape
    ensures { result ≡ constant.shape_of (Node (Unary op (word_expr_of value.now)) at) }
{
    match (op, &value.form) {
        (UnaryOp::Minus, WordForm::Const(w)) => Shape::Constant(Constant::Number(negative(*w))),
        _ => Shape::Computed,
    }
}

pub(crate) fn operand_of(k: Constant) -> AccOperand
    ensures { result ≡ constant.constant_operand k }
{
    match k {
        Constant::Number(w) => AccOperand::Number(w),
        Constant::Address { object, index } => AccOperand::Address { object, index },
    }
}

pub fn load_constant(code: &mut Vec<AccItem>, k: Constant) -> Result<(), NoMemory>
    ensures { OnOk result (Appends code.old.items code.new.items (constant.load_constant k ▸ end)) }
{
    match k {
        Constant::Number(w) if w < 256 => op(code, AccOp::Lack, operand_of(k)),
        _ => op(code, AccOp::Lalk { shift: 0 }, operand_of(k)),
    }
}

/// What is known of the high half of the accumulator behind the load of a constant.
pub(crate) fn constant_high(k: Constant) -> HighHalf
    ensures { result ≡ constant.constant_high k }
{
    match k {
        Constant::Number(w) if w < 32768 => HighHalf::Small,
        _ => HighHalf::Sign,
    }
}

/// What a cell starts with.
pub fn initial_constant(x: Initial) -> Constant
    ensures { result ≡ constant.initial_constant x }
{
    match x {
        Initial::Word(w) => Constant::Number(w),
        Initial::Address { object, index } => Constant::Address {
            object: VarRef::Static(object),
            index,
        },
        Initial::Null => Constant::Number(0),
    }
}
