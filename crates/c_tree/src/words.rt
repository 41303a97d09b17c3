//! What the operators give on words: ISO 9899:1990 6.3.3.3 and 6.3.5 to 6.3.12.
ghost use Rattle.std.specs.Prelude.{◌≡◌};
ghost use Rattle.c_syntax.specs.word_base.Words as words;
ghost use Rattle.c_tree.specs.Operators as operators;
ghost use Rattle.c_tree.specs.Operators.{answer};

use c_syntax::{BinaryOp, UnaryOp, UndefinedKind, div_trunc, signed, wrap16};

/// An operator on two ints: the word of its value, or why it has none.
pub fn int_binary(op: BinaryOp, a: u16, b: u16) -> Result<u16, UndefinedKind>
    ensures { result ≡ answer (operators.int_binary op a b) }
{
    match op {
        BinaryOp::Add => fit(signed(a) + signed(b)),
        BinaryOp::Sub => fit(signed(a) - signed(b)),
        BinaryOp::Mul => int_product(a, b),
        BinaryOp::Div => int_quotient(a, b),
        BinaryOp::Rem => int_remainder(a, b),
        BinaryOp::And => Ok(a & b),
        BinaryOp::Or => Ok(a | b),
        BinaryOp::Xor => Ok(a ^ b),
        BinaryOp::Shl => shift_left(a, b),
        BinaryOp::Shr => int_shift_right(a, b),
        BinaryOp::Eq => Ok(truth(a == b)),
        BinaryOp::Ne => Ok(truth(a != b)),
        BinaryOp::Lt => Ok(truth(signed(a) < signed(b))),
        BinaryOp::Gt => Ok(truth(signed(b) < signed(a))),
        BinaryOp::Le => Ok(truth(signed(a) <= signed(b))),
        BinaryOp::Ge => Ok(truth(signed(b) <= signed(a))),
    }
}

/// An operator on two words without a sign: the word of its value, or why it has none.
pub fn unsigned_binary(op: BinaryOp, a: u16, b: u16) -> Result<u16, UndefinedKind>
    ensures { result ≡ answer (operators.unsigned_binary op a b) }
{
    match op {
        BinaryOp::Add => Ok(a.wrapping_add(b)),
        BinaryOp::Sub => Ok(a.wrapping_sub(b)),
        BinaryOp::Mul => Ok(a.wrapping_mul(b)),
        BinaryOp::Div => unsigned_quotient(a, b),
        BinaryOp::Rem => unsigned_remainder(a, b),
        BinaryOp::And => Ok(a & b),
        BinaryOp::Or => Ok(a | b),
        BinaryOp::Xor => Ok(a ^ b),
        BinaryOp::Shl => shift_left(a, b),
        BinaryOp::Shr => unsigned_shift_right(a, b),
        BinaryOp::Eq => Ok(truth(a == b)),
        BinaryOp::Ne => Ok(truth(a != b)),
        BinaryOp::Lt => Ok(truth(a < b)),
        BinaryOp::Gt => Ok(truth(b < a)),
        BinaryOp::Le => Ok(truth(a <= b)),
        BinaryOp::Ge => Ok(truth(b <= a)),
    }
}

/// An operator on one int: the word of its value, or why it has none.
pub fn int_unary(op: UnaryOp, a: u16) -> Result<u16, UndefinedKind>
    ensures { result ≡ answer (operators.int_unary op a) }
{
    match op {
        UnaryOp::Minus => fit(-signed(a)),
        UnaryOp::Plus => Ok(a),
        UnaryOp::Complement => Ok(!a),
    }
}

/// An operator on one word without a sign, which always has a value.
pub fn unsigned_unary(op: UnaryOp, a: u16) -> u16
    ensures { operators.unsigned_unary op a ≡ words.Good result }
{
    match op {
        UnaryOp::Minus => a.wrapping_neg(),
        UnaryOp::Plus => a,
        UnaryOp::Complement => !a,
    }
}

/// The word of a truth value: 1 or 0.
pub fn truth(holds: bool) -> u16
    ensures { result ≡ words.truth holds }
{
    if holds { 1 } else { 0 }
}

// A number as an int, where it is one.
fn fit(value: i32) -> Result<u16, UndefinedKind>
    ensures { result ≡ answer (words.fit value) }
{
    if value < -0x8000 || value > 0x7fff {
        Err(UndefinedKind::Overflow)
    } else {
        Ok(wrap16(i64::from(value)))
    }
}

// The product of two ints is always within 32 bits, so there is one.
fn int_product(a: u16, b: u16) -> Result<u16, UndefinedKind>
    ensures { result ≡ answer (words.int_multiply a b) }
{
    match signed(a).checked_mul(signed(b)) {
        Some(product) => fit(product),
        None => Err(UndefinedKind::Overflow),
    }
}

fn int_quotient(a: u16, b: u16) -> Result<u16, UndefinedKind>
    ensures { result ≡ answer (words.int_quotient a b) }
{
    match div_trunc(signed(a), signed(b)) {
        Some(quotient) => fit(quotient),
        None => Err(UndefinedKind::DivideByZero),
    }
}

// A remainder, which is there where the quotient is.
fn int_remainder(a: u16, b: u16) -> Result<u16, UndefinedKind>
    ensures { result ≡ answer (words.int_remainder a b) }
{
    int_quotient(a, b)?;
    match signed(a).checked_rem(signed(b)) {
        Some(remainder) => Ok(wrap16(i64::from(remainder))),
        None => Err(UndefinedKind::DivideByZero),
    }
}

fn unsigned_quotient(a: u16, b: u16) -> Result<u16, UndefinedKind>
    ensures { result ≡ answer (words.unsigned_quotient a b) }
{
    a.checked_div(b).ok_or(UndefinedKind::DivideByZero)
}

fn unsigned_remainder(a: u16, b: u16) -> Result<u16, UndefinedKind>
    ensures { result ≡ answer (words.unsigned_remainder a b) }
{
    a.checked_rem(b).ok_or(UndefinedKind::DivideByZero)
}

// The bit pattern is shifted, of an int too.
fn shift_left(a: u16, b: u16) -> Result<u16, UndefinedKind>
    ensures { result ≡ answer (words.shift_left a b) }
{
    a.checked_shl(u32::from(b)).ok_or(UndefinedKind::ShiftCount)
}

fn unsigned_shift_right(a: u16, b: u16) -> Result<u16, UndefinedKind>
    ensures { result ≡ answer (words.unsigned_shift_right a b) }
{
    a.checked_shr(u32::from(b)).ok_or(UndefinedKind::ShiftCount)
}

// The sign is copied: in a word below zero, ones come in from the left.
fn int_shift_right(a: u16, b: u16) -> Result<u16, UndefinedKind>
    ensures { result ≡ answer (words.int_shift_right a b) }
{
    if a < 0x8000 {
        unsigned_shift_right(a, b)
    } else {
        Ok(!unsigned_shift_right(!a, b)?)
    }
}
