//! The instruction of a row.
ghost use Rattle.std.specs.Prelude.{◌≡◌};
ghost use Rattle.emit_blocks.specs.Instructions as instructions;
ghost use Rattle.emit_blocks.specs.Right.{IsConstantOf};

use acc_code::AccOp;
use c25_isa::{Instr, Operand};

/// On a word of data memory.
pub(crate) fn word_instr(row: AccOp, operand: Operand) -> Instr
    ensures { result ≡ instructions.word_instr row operand }
{
    match row {
        AccOp::Point => Instr::Lar {
            register: 1,
            operand,
        },
        AccOp::Add { shift } => Instr::Add { shift, operand },
        AccOp::Sub { shift } => Instr::Sub { shift, operand },
        AccOp::Lac { shift } => Instr::Lac { shift, operand },
        AccOp::Mpy => Instr::Mpy(operand),
        AccOp::Lt => Instr::Lt(operand),
        AccOp::Zals => Instr::Zals(operand),
        AccOp::Lact => Instr::Lact(operand),
        AccOp::Subs => Instr::Subs(operand),
        AccOp::Adds => Instr::Adds(operand),
        AccOp::Xor => Instr::Xor(operand),
        AccOp::Or => Instr::Or(operand),
        AccOp::And => Instr::And(operand),
        AccOp::Sacl { shift } => Instr::Sacl { shift, operand },
        AccOp::Sach { shift } => Instr::Sach { shift, operand },
        AccOp::In { port } => Instr::In { port, operand },
        AccOp::Out { port } => Instr::Out { port, operand },
        _ => Instr::Dint,
    }
}

/// On a constant, or on the accumulator alone.
pub(crate) fn constant_instr(row: AccOp, word: u16) -> Instr
    requires { IsConstantOf row word }
    ensures { result ≡ instructions.constant_instr row word }
{
    match row {
        AccOp::Point => Instr::Lrlk { register: 1, word },
        AccOp::Mpyk => Instr::Mpyk(word.cast_signed()),
        AccOp::Lack => Instr::Lack(word as u8),
        AccOp::Addk => Instr::Addk(word as u8),
        AccOp::Subk => Instr::Subk(word as u8),
        AccOp::Lalk { shift } => Instr::Lalk { shift, word },
        AccOp::Adlk { shift } => Instr::Adlk { shift, word },
        AccOp::Sblk { shift } => Instr::Sblk { shift, word },
        AccOp::Andk => Instr::Andk(word),
        AccOp::Ork => Instr::Ork(word),
        AccOp::Xork => Instr::Xork(word),
        _ => plain_instr(row),
    }
}

// On the accumulator alone.
fn plain_instr(row: AccOp) -> Instr
    ensures { result ≡ instructions.plain_instr row }
{
    match row {
        AccOp::Rovm => Instr::Rovm,
        AccOp::Rsxm => Instr::Rsxm,
        AccOp::Ssxm => Instr::Ssxm,
        AccOp::Spm => Instr::Spm,
        AccOp::Pac => Instr::Pac,
        AccOp::Apac => Instr::Apac,
        AccOp::Spac => Instr::Spac,
        AccOp::Sfl => Instr::Sfl,
        AccOp::Sfr => Instr::Sfr,
        AccOp::Neg => Instr::Neg,
        AccOp::Cmpl => Instr::Cmpl,
        _ => Instr::Dint,
    }
}
