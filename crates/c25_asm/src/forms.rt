//! The operands of each form, and what they put into words.
ghost use Rattle.std.specs.Prelude.{◌≡◌, ◌+◌, ◌*◌, option_copied};
ghost use Rattle.c25_isa.specs.Table.{AreFields, IsSigned13, fields_code, low13};
ghost use Rattle.c25_asm.specs.LabelView.{known};
ghost use Rattle.c25_asm.specs.Operands as operands;

use crate::cuts::cut_operand;
use crate::labels::LabelTable;
use crate::numbers::{byte_below, number_below, signed_number};
use crate::operands::{both, indirect, place, port, register, word};
use crate::statement::LineFault;
use c25_isa::{Change, Fields, Form, Indirect};

// The one operand of rows that access data memory.
fn memory(text: &[u8]) -> Result<Fields, LineFault>
    ensures { result ≡ operands.memory text.now }
{
    let (first, next) = cut_operand(text);
    Ok(Fields::Memory(place(first, next)?))
}

fn shifted_memory(shifts: u8, text: &[u8]) -> Result<Fields, LineFault>
    ensures { result ≡ operands.shifted_memory shifts text.now }
{
    let (first, Some(more)) = cut_operand(text) else {
        return Err(LineFault::BadLine);
    };
    let (second, next) = cut_operand(more);
    let (shift, operand) = both(byte_below(u32::from(shifts), second), place(first, next))?;
    Ok(Fields::ShiftedMemory { shift, operand })
}

fn port_memory(text: &[u8]) -> Result<Fields, LineFault>
    ensures { result ≡ operands.port_memory text.now }
{
    let (first, Some(more)) = cut_operand(text) else {
        return Err(LineFault::BadLine);
    };
    let (second, next) = cut_operand(more);
    let (port, operand) = both(port(second), place(first, next))?;
    Ok(Fields::PortMemory { port, operand })
}

fn register_memory(text: &[u8]) -> Result<Fields, LineFault>
    ensures { result ≡ operands.register_memory text.now }
{
    let (first, Some(more)) = cut_operand(text) else {
        return Err(LineFault::BadLine);
    };
    let (second, next) = cut_operand(more);
    let (register, operand) = both(register(first), place(second, next))?;
    Ok(Fields::RegisterMemory { register, operand })
}

fn register_constant(text: &[u8]) -> Result<Fields, LineFault>
    ensures { result ≡ operands.register_constant text.now }
{
    let (first, Some(more)) = cut_operand(text) else {
        return Err(LineFault::BadLine);
    };
    let (register, constant) = both(register(first), byte_below(256, more))?;
    Ok(Fields::RegisterConstant { register, constant })
}

fn shifted_word(labels: &LabelTable<'_>, text: &[u8]) -> Result<Fields, LineFault>
    ensures { result ≡ operands.shifted_word (known labels.now) text.now }
{
    let (first, Some(more)) = cut_operand(text) else {
        return Err(LineFault::BadLine);
    };
    let (word, shift) = both(word(labels, first), byte_below(16, more))?;
    Ok(Fields::ShiftedWord { shift, word })
}

fn register_word(labels: &LabelTable<'_>, text: &[u8]) -> Result<Fields, LineFault>
    ensures { result ≡ operands.register_word (known labels.now) text.now }
{
    let (first, Some(more)) = cut_operand(text) else {
        return Err(LineFault::BadLine);
    };
    let (register, word) = both(register(first), word(labels, more))?;
    Ok(Fields::RegisterWord { register, word })
}

// The indirect operand of a jump, which isn't written where it changes no register and sets none.
fn jump_operand(text: Option<&[u8]>) -> Result<Indirect, LineFault>
    ensures { result ≡ operands.jump_operand (option_copied text.entry) }
{
    let idle = Indirect {
        change: Change::Stay,
        next: None,
    };
    let Some(text) = text else {
        return Ok(idle);
    };
    let operand = indirect(text)?;
    match (operand.change, operand.next) {
        (Change::Stay, None) => Err(LineFault::BadLine),
        _ => Ok(operand),
    }
}

fn target(labels: &LabelTable<'_>, text: &[u8]) -> Result<Fields, LineFault>
    ensures { result ≡ operands.target (known labels.now) text.now }
{
    let (first, more) = cut_operand(text);
    let (to, operand) = both(word(labels, first), jump_operand(more))?;
    Ok(Fields::Target { to, operand })
}

fn no_operand(text: &[u8]) -> Result<Fields, LineFault>
    ensures { result ≡ operands.no_operand text.now }
{
    if text.is_empty() {
        Ok(Fields::NoOperand)
    } else {
        Err(LineFault::BadLine)
    }
}

/// The operands of a form.
pub(crate) fn form_operands(
    labels: &LabelTable<'_>,
    form: Form,
    text: &[u8],
) -> Result<Fields, LineFault>
    ensures { result ≡ operands.form_operands (known labels.now) form text.now }
{
    match form {
        Form::NoOperand => no_operand(text),
        Form::Memory => memory(text),
        Form::ShiftedMemory { shifts } => shifted_memory(shifts, text),
        Form::RegisterMemory => register_memory(text),
        Form::PortMemory => port_memory(text),
        Form::Pointer => Ok(Fields::Pointer(indirect(text)?)),
        Form::Constant8 => Ok(Fields::Constant8(byte_below(256, text)?)),
        Form::Constant9 => Ok(Fields::Constant9(number_below(512, text)?)),
        Form::Constant13 => Ok(Fields::Constant13(signed_number(text)?)),
        Form::RegisterConstant => register_constant(text),
        Form::Word => Ok(Fields::Word(word(labels, text)?)),
        Form::ShiftedWord => shifted_word(labels, text),
        Form::RegisterWord => register_word(labels, text),
        Form::Target => target(labels, text),
    }
}

// The low 13 bits of a number from -4096 to 4095.
fn low_13(constant: i16) -> u16
    requires { IsSigned13 constant }
    ensures { result ≡ low13 constant }
{
    if constant < 0 {
        (8192 + constant) as u16
    } else {
        constant as u16
    }
}

// The word of two bytes.
fn word_of(high: u8, low: u8) -> u16
    ensures { result ≡ high * 256 + low }
{
    u16::from(high) * 256 + u16::from(low)
}

/// What operands put into the first word.
pub(crate) fn code_of(fields: &Fields) -> u16
    requires { AreFields fields.now }
    ensures { result ≡ fields_code fields.now }
{
    match *fields {
        Fields::NoOperand | Fields::Word(_) => 0,
        Fields::Memory(operand) => u16::from(operand.byte()),
        Fields::ShiftedMemory { shift, operand } => word_of(shift, operand.byte()),
        Fields::RegisterMemory { register, operand } => word_of(register, operand.byte()),
        Fields::PortMemory { port, operand } => word_of(port, operand.byte()),
        Fields::Pointer(operand) | Fields::Target { operand, .. } => u16::from(operand.byte()),
        Fields::Constant8(constant) => u16::from(constant),
        Fields::Constant9(constant) => constant,
        Fields::Constant13(constant) => low_13(constant),
        Fields::RegisterConstant { register, constant } => word_of(register, constant),
        Fields::ShiftedWord { shift, .. } => word_of(shift, 0),
        Fields::RegisterWord { register, .. } => word_of(register, 0),
    }
}
