//! From an instruction to its words.
ghost use Rattle.std.specs.Prelude.{◌≡◌, ◌*◌, ◌+◌, ℕ, Some};
ghost use Rattle.c25_isa.specs.CodeAt.{Follows};
ghost use Rattle.c25_isa.specs.Decode.{decode as decode_of};
ghost use Rattle.c25_isa.specs.Table.{AreFields, IsInstr, IsSigned13, low13, fields_code, fields_second, first_word, second_word, length_of};

use crate::fields::Fields;
use crate::instruction::Instr;

/// The first word of an instruction, which is its row's word with the operands put in, and the second one where it has one.
pub fn encode(instr: &Instr) -> (u16, Option<u16>)
    requires { IsInstr instr.now }
    ensures words { result ≡ (first_word instr.now, second_word instr.now) }
    // These words stand for this instruction, whatever stands behind those of one word.
    ensures decoded { (second : ℕ) → Follows (second_word instr.now) second
        → decode_of (first_word instr.now) second ≡ Some (instr.now, length_of (second_word instr.now)) }
{
    let fields = instr.fields();
    (
        instr.mnemonic().row().base + fields.in_first_word(),
        fields.second_word(),
    )
}

impl Fields {
    // What the operands put into the first word.
    fn in_first_word(&self) -> u16
        requires { AreFields self.now }
        ensures { result ≡ fields_code self.now }
    {
        match *self {
            Fields::NoOperand | Fields::Word(_) => 0,
            Fields::Memory(operand) => u16::from(operand.byte()),
            Fields::ShiftedMemory { shift, operand } => word_of(shift, operand.byte()),
            Fields::RegisterMemory { register, operand } => word_of(register, operand.byte()),
            Fields::PortMemory { port, operand } => word_of(port, operand.byte()),
            Fields::Pointer(operand) | Fields::Target { operand, .. } => u16::from(operand.byte()),
            Fields::Constant8(constant) => u16::from(constant),
            Fields::Constant9(constant) => constant,
            Fields::Constant13(constant) => low_13(constant),
            Fields::RegisterConstant { register, constant } => word_of(register, constant),
            Fields::ShiftedWord { shift, .. } => word_of(shift, 0),
            Fields::RegisterWord { register, .. } => word_of(register, 0),
        }
    }

    /// The second word that they want.
    pub fn second_word(&self) -> Option<u16>
        ensures { result ≡ fields_second self.now }
    {
        match *self {
            Fields::Word(word)
            | Fields::ShiftedWord { word, .. }
            | Fields::RegisterWord { word, .. } => Some(word),
            Fields::Target { to, .. } => Some(to),
            _ => None,
        }
    }
}

// The low 13 bits of a number from -4096 to 4095.
fn low_13(constant: i16) -> u16
    requires { IsSigned13 constant }
    ensures { result ≡ low13 constant }
{
    if constant < 0 {
        (8192 + constant) as u16
    } else {
        constant as u16
    }
}

// The word of two bytes.
fn word_of(high: u8, low: u8) -> u16
    ensures { result ≡ high * 256 + low }
{
    u16::from(high) * 256 + u16::from(low)
}
