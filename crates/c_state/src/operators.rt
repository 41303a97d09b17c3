//! What operators give on values: ISO 9899:1990 6.3.3.3 and 6.3.5 to 6.3.12, on pointers 6.3.6, 6.3.8 and 6.3.9.
ghost use Rattle.std.specs.Prelude.{◌≡◌, ◌≤ℤ◌, pos, negsuc, neg_ℤ, if◌then◌else◌};
ghost use Rattle.c_tree.specs.Eval as eval;
ghost use Rattle.c_tree.specs.Operators as operators;
ghost use Rattle.c_state.specs.Operands as operands;
ghost use Rattle.c_state.specs.Operands.{IsAnswer};
ghost use Rattle.c_state.specs.Values.{value_of};
ghost use Rattle.c_state.specs.Worlds.{world_of, ComesTo};

use crate::state::State;
use crate::value::{Spot, Stop, Value, bad_pointer, undefined};
use c_syntax::{BinaryOp, UnaryOp};
use c_tree::{
    ScalarType, int_binary, int_unary, is_unsigned, truth, unsigned_binary, unsigned_unary,
    without_sign,
};
use word_base::{signed, zero_ext};

/// A value of a type: an operand of an operator.
#[derive(Clone, Copy, PartialEq, Eq)]
pub struct Operand {
    pub kind: Option<ScalarType>,
    pub value: Value,
}

// A word as the number that its type reads.
fn number(kind: Option<ScalarType>, word: u16) -> i32
    ensures { result ≡ eval.number kind word }
{
    if is_unsigned(kind) {
        zero_ext(word)
    } else {
        signed(word)
    }
}

// The number that is subtracted with a word.
fn negated(kind: Option<ScalarType>, word: u16) -> i32
    ensures value { result ≡ neg_ℤ (eval.number kind word) }
    ensures low { negsuc 65535 ≤ℤ result }
    ensures high { result ≤ℤ pos 65536 }
{
    -number(kind, word)
}

// An index, where it is from 0 to a length.
fn index_in(length: u16, place: i32) -> Option<u16>
    ensures { result ≡ operands.index_in length place }
{
    let index = u16::try_from(place).ok()?;
    if length < index { None } else { Some(index) }
}

impl State {
    /// An operator on two values.
    pub fn of_two(
        &self,
        op: BinaryOp,
        left: Operand,
        right: Operand,
        at: u32,
    ) -> Result<Value, Stop>
        ensures { ComesTo value_of (eval.of_two op left.kind right.kind (value_of left.value) (value_of right.value) at (world_of self.now)) self.now result }
    {
        match (left.value, right.value) {
            (Value::Word(a), Value::Word(b)) => {
                of_words(op, without_sign(op, left.kind, right.kind), a, b, at)
            }
            (Value::Pointer(spot), Value::Word(b)) => match op {
                BinaryOp::Add => self.moved(spot, number(right.kind, b), at),
                BinaryOp::Sub => self.moved(spot, negated(right.kind, b), at),
                _ => Err(bad_pointer(at)),
            },
            (Value::Word(a), Value::Pointer(spot)) => match op {
                BinaryOp::Add => self.moved(spot, number(left.kind, a), at),
                _ => Err(bad_pointer(at)),
            },
            (Value::Pointer(left), Value::Pointer(right)) => self.of_pointers(op, left, right, at),
            (Value::Pointer(spot), Value::Null) | (Value::Null, Value::Pointer(spot)) => {
                self.beside_null(op, spot, at)
            }
            (Value::Null, Value::Null) => equality(op, true, at),
            (Value::Null, Value::Word(_)) | (Value::Word(_), Value::Null) => Err(bad_pointer(at)),
        }
    }

    // A pointer moved by a number of cells.
    fn moved(&self, spot: Spot, by: i32, at: u32) -> Result<Value, Stop>
        requires low { negsuc 65535 ≤ℤ by }
        requires high { by ≤ℤ pos 65536 }
        ensures { ComesTo value_of (eval.move spot.object.number spot.index by at (world_of self.now)) self.now result }
    {
        let Some(length) = self.store.length(spot.object) else {
            return Err(bad_pointer(at));
        };
        let Some(index) = index_in(length, i32::from(spot.index) + by) else {
            return Err(bad_pointer(at));
        };
        Ok(Value::Pointer(Spot {
            object: spot.object,
            index,
        }))
    }

    // Two pointers, both to living objects.
    fn of_pointers(&self, op: BinaryOp, left: Spot, right: Spot, at: u32) -> Result<Value, Stop>
        ensures { ComesTo value_of (operands.of_pointers op left.object.number left.index right.object.number right.index at (world_of self.now)) self.now result }
    {
        if self.store.length(left.object).is_none() || self.store.length(right.object).is_none() {
            return Err(bad_pointer(at));
        }
        if left.object.number == right.object.number {
            ordering(op, left.index, right.index, at)
        } else {
            equality(op, false, at)
        }
    }

    // A pointer to a living object, and the null pointer.
    fn beside_null(&self, op: BinaryOp, spot: Spot, at: u32) -> Result<Value, Stop>
        ensures { ComesTo value_of (operands.beside_null op spot.object.number at (world_of self.now)) self.now result }
    {
        match self.store.length(spot.object) {
            Some(_) => equality(op, false, at),
            None => Err(bad_pointer(at)),
        }
    }

    /// A value one up or down.
    pub fn stepped(
        &self,
        up: bool,
        kind: Option<ScalarType>,
        value: Value,
        at: u32,
    ) -> Result<Value, Stop>
        ensures { ComesTo value_of (eval.stepped up kind (value_of value) at (world_of self.now)) self.now result }
    {
        let op = if up { BinaryOp::Add } else { BinaryOp::Sub };
        let one = Operand {
            kind: None,
            value: Value::Word(1),
        };
        self.of_two(op, Operand { kind, value }, one, at)
    }

    /// An operator on one value.
    pub fn of_one(
        &self,
        op: UnaryOp,
        kind: Option<ScalarType>,
        value: Value,
        at: u32,
    ) -> Result<Value, Stop>
        ensures { ComesTo value_of (eval.of_one op kind (value_of value) at (world_of self.now)) self.now result }
    {
        let Value::Word(word) = value else {
            return Err(bad_pointer(at));
        };
        if is_unsigned(kind) {
            return Ok(Value::Word(unsigned_unary(op, word)));
        }
        match int_unary(op, word) {
            Ok(word) => Ok(Value::Word(word)),
            Err(kind) => Err(undefined(kind, at)),
        }
    }

    /// Where a pointer points.
    pub fn spot_of(&self, value: Value, at: u32) -> Result<Spot, Stop>
        ensures { ComesTo (λ spot. (spot.object.number, spot.index)) (eval.spot_of (value_of value) at (world_of self.now)) self.now result }
    {
        match value {
            Value::Pointer(spot) => Ok(spot),
            Value::Null | Value::Word(_) => Err(bad_pointer(at)),
        }
    }

    /// Whether a value isn't zero and isn't null.
    pub fn test(&self, value: Value, at: u32) -> Result<bool, Stop>
        ensures { ComesTo (λ b. b) (eval.test_of (value_of value) at (world_of self.now)) self.now result }
    {
        match value {
            Value::Word(word) => Ok(word != 0),
            Value::Null => Ok(false),
            Value::Pointer(spot) => match self.store.length(spot.object) {
                Some(_) => Ok(true),
                None => Err(bad_pointer(at)),
            },
        }
    }
}

// An operator on two words, read with a sign or without.
fn of_words(op: BinaryOp, is_unsigned: bool, a: u16, b: u16, at: u32) -> Result<Value, Stop>
    ensures { IsAnswer (eval.calc (if is_unsigned then operators.unsigned_binary op a b else operators.int_binary op a b) at) result }
{
    let word = if is_unsigned {
        unsigned_binary(op, a, b)
    } else {
        int_binary(op, a, b)
    };
    match word {
        Ok(word) => Ok(Value::Word(word)),
        Err(kind) => Err(undefined(kind, at)),
    }
}

// Two pointers of which it is known whether they are equal.
fn equality(op: BinaryOp, is_equal: bool, at: u32) -> Result<Value, Stop>
    ensures { IsAnswer (eval.equality op is_equal at) result }
{
    match op {
        BinaryOp::Eq => Ok(Value::Word(truth(is_equal))),
        BinaryOp::Ne => Ok(Value::Word(truth(!is_equal))),
        _ => Err(bad_pointer(at)),
    }
}

// Two pointers into one object.
fn ordering(op: BinaryOp, i: u16, j: u16, at: u32) -> Result<Value, Stop>
    ensures { IsAnswer (eval.ordering op i j at) result }
{
    match op {
        BinaryOp::Lt => Ok(Value::Word(truth(i < j))),
        BinaryOp::Gt => Ok(Value::Word(truth(j < i))),
        BinaryOp::Le => Ok(Value::Word(truth(i <= j))),
        BinaryOp::Ge => Ok(Value::Word(truth(j <= i))),
        BinaryOp::Sub => of_words(op, false, i, j, at),
        _ => equality(op, i == j, at),
    }
}
