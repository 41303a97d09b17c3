//! The operands of an instruction, in the order in which they are written.
ghost use Rattle.std.specs.Prelude.{◌≡◌, ◌<◌, ◌++◌, length, OnOk};
ghost use Rattle.c25_dis.specs.Operands as operands;
ghost use Rattle.c25_dis.specs.Operands.{next_parts, parts_of, parts_text, target_parts};

use crate::part::Part::{Byte, Page, Place, Port, Register, Shift, Signed, Word};
use crate::part::{Part, push_parts, push_with_next};
use c25_isa::{Change, Fields, Indirect, Operand};
use word_base::NoMemory;

// The register that is current afterwards, where an operand sets one.
fn next_of(operand: Operand) -> Option<u8>
    ensures { result ≡ operands.next_of operand }
{
    match operand {
        Operand::Direct(_) => None,
        Operand::Indirect(indirect) => indirect.next,
    }
}

// Whether an indirect operand changes neither its register nor which one is current.
fn is_idle(operand: Indirect) -> bool
    ensures { result ≡ operands.is_idle operand.change operand.next }
{
    match (operand.change, operand.next) {
        (Change::Stay, None) => true,
        _ => false,
    }
}

// The word that a jump names, and its operand where that does something.
fn push_target(text: &mut Vec<u8>, to: u16, operand: Indirect) -> Result<(), NoMemory>
    ensures { OnOk result (text.new.items ≡ text.old.items ++ parts_text (target_parts to operand)) }
{
    if is_idle(operand) {
        push_parts(text, &[Word(to)])
    } else {
        let parts = [Word(to), Place(Operand::Indirect(operand))];
        push_with_next(text, &parts, operand.next)
    }
}

// The operands of a row that has one of data memory.
fn push_memory(text: &mut Vec<u8>, parts: &[Part], operand: Operand) -> Result<(), NoMemory>
    requires { 0 < length parts.now }
    ensures { OnOk result (text.new.items ≡ text.old.items ++ parts_text (parts.now ++ next_parts (operands.next_of operand))) }
{
    push_with_next(text, parts, next_of(operand))
}

/// Puts the operands behind a text, with a space before the first and commas between them.
pub(crate) fn push_operands(text: &mut Vec<u8>, fields: &Fields) -> Result<(), NoMemory>
    ensures { OnOk result (text.new.items ≡ text.old.items ++ parts_text (parts_of fields.now)) }
{
    match *fields {
        Fields::NoOperand => Ok(()),
        Fields::Memory(operand) => push_memory(text, &[Place(operand)], operand),
        Fields::ShiftedMemory { shift, operand } => {
            let parts = [Place(operand), Shift(shift)];
            push_memory(text, &parts, operand)
        }
        Fields::RegisterMemory { register, operand } => {
            let parts = [Register(register), Place(operand)];
            push_memory(text, &parts, operand)
        }
        Fields::PortMemory { port, operand } => {
            let parts = [Place(operand), Port(port)];
            push_memory(text, &parts, operand)
        }
        Fields::Pointer(operand) => push_with_next(
            text,
            &[Place(Operand::Indirect(operand))],
            operand.next,
        ),
        Fields::Constant8(constant) => push_parts(text, &[Byte(constant)]),
        Fields::Constant9(constant) => push_parts(text, &[Page(constant)]),
        Fields::Constant13(constant) => push_parts(text, &[Signed(constant)]),
        Fields::RegisterConstant { register, constant } => push_parts(
            text,
            &[Register(register), Byte(constant)],
        ),
        Fields::Word(word) => push_parts(text, &[Word(word)]),
        Fields::ShiftedWord { shift, word } => push_parts(text, &[Word(word), Shift(shift)]),
        Fields::RegisterWord { register, word } => push_parts(
            text,
            &[Register(register), Word(word)],
        ),
        Fields::Target { to, operand } => push_target(text, to, operand),
    }
}
