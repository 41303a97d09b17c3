//! An instruction as a row of the table with its operands.
ghost use Rattle.std.specs.Prelude.{◌≡◌, ℕ, false, is_some, IfSome, Some};
ghost use Rattle.c25_isa.specs.declared.fields.Fields.{Fields as SomeFields};
ghost use Rattle.c25_isa.specs.declared.instruction.Instr.{Instr as AnInstr};
ghost use Rattle.c25_isa.specs.declared.mnemonic.Mnemonic.{Mnemonic as ARow};
ghost use Rattle.c25_isa.specs.Rows.{fields_of, instr_of, IsOf, row, row_of};
ghost use Rattle.c25_isa.specs.MemoryUse.{has_operand, writes, LeavesRam};
ghost use Rattle.c25_isa.specs.State.{State};
ghost use Rattle.c25_isa.specs.Step.{effect};
ghost use Rattle.c25_isa.specs.Table.{AreFields, FitsForm, IsIndirect, IsInstr, IsOperand, memory_of, pointer_of};

use crate::instruction::Instr;
use crate::mnemonic::Mnemonic;
use crate::operand::{Indirect, Operand};

/// The operands of an instruction, by the form that they have.
#[derive(Clone, Copy)]
pub enum Fields {
    NoOperand,
    Memory(Operand),
    ShiftedMemory { shift: u8, operand: Operand },
    RegisterMemory { register: u8, operand: Operand },
    PortMemory { port: u8, operand: Operand },
    Pointer(Indirect),
    Constant8(u8),
    Constant9(u16),
    Constant13(i16),
    RegisterConstant { register: u8, constant: u8 },
    Word(u16),
    ShiftedWord { shift: u8, word: u16 },
    RegisterWord { register: u8, word: u16 },
    Target { to: u16, operand: Indirect },
}

impl Instr {
    /// The row of the table.
    pub fn mnemonic(&self) -> Mnemonic
        ensures { result ≡ row_of self.now }
    {
        match self {
            Instr::Add { .. } => Mnemonic::Add,
            Instr::Sub { .. } => Mnemonic::Sub,
            Instr::Lac { .. } => Mnemonic::Lac,
            Instr::Lar { .. } => Mnemonic::Lar,
            Instr::Mpy(_) => Mnemonic::Mpy,
            Instr::Lt(_) => Mnemonic::Lt,
            Instr::Zals(_) => Mnemonic::Zals,
            Instr::Lact(_) => Mnemonic::Lact,
            Instr::Subs(_) => Mnemonic::Subs,
            Instr::Subc(_) => Mnemonic::Subc,
            Instr::Adds(_) => Mnemonic::Adds,
            Instr::Rpt(_) => Mnemonic::Rpt,
            Instr::Xor(_) => Mnemonic::Xor,
            Instr::Or(_) => Mnemonic::Or,
            Instr::And(_) => Mnemonic::And,
            Instr::Pshd(_) => Mnemonic::Pshd,
            Instr::Mar(_) => Mnemonic::Mar,
            Instr::Sacl { .. } => Mnemonic::Sacl,
            Instr::Sach { .. } => Mnemonic::Sach,
            Instr::Sar { .. } => Mnemonic::Sar,
            Instr::Popd(_) => Mnemonic::Popd,
            Instr::Adrk(_) => Mnemonic::Adrk,
            Instr::Sbrk(_) => Mnemonic::Sbrk,
            Instr::In { .. } => Mnemonic::In,
            Instr::Mpyk(_) => Mnemonic::Mpyk,
            Instr::Lark { .. } => Mnemonic::Lark,
            Instr::Ldpk(_) => Mnemonic::Ldpk,
            Instr::Lack(_) => Mnemonic::Lack,
            Instr::Rptk(_) => Mnemonic::Rptk,
            Instr::Addk(_) => Mnemonic::Addk,
            Instr::Subk(_) => Mnemonic::Subk,
            Instr::Dint => Mnemonic::Dint,
            Instr::Rovm => Mnemonic::Rovm,
            Instr::Rsxm => Mnemonic::Rsxm,
            Instr::Ssxm => Mnemonic::Ssxm,
            Instr::Spm => Mnemonic::Spm,
            Instr::Pac => Mnemonic::Pac,
            Instr::Apac => Mnemonic::Apac,
            Instr::Spac => Mnemonic::Spac,
            Instr::Sfl => Mnemonic::Sfl,
            Instr::Sfr => Mnemonic::Sfr,
            Instr::Idle => Mnemonic::Idle,
            Instr::Neg => Mnemonic::Neg,
            Instr::Ret => Mnemonic::Ret,
            Instr::Cmpl => Mnemonic::Cmpl,
            Instr::Lrlk { .. } => Mnemonic::Lrlk,
            Instr::Lalk { .. } => Mnemonic::Lalk,
            Instr::Adlk { .. } => Mnemonic::Adlk,
            Instr::Sblk { .. } => Mnemonic::Sblk,
            Instr::Andk(_) => Mnemonic::Andk,
            Instr::Ork(_) => Mnemonic::Ork,
            Instr::Xork(_) => Mnemonic::Xork,
            Instr::Out { .. } => Mnemonic::Out,
            Instr::Branch { op, .. } => Mnemonic::Branch(*op),
            Instr::Call { .. } => Mnemonic::Call,
        }
    }

    /// The operands. It is built into each step of the simulator for speed.
    #[inline(always)]
    pub fn fields(&self) -> Fields
        ensures { result ≡ fields_of self.now }
    {
        match *self {
            Instr::Dint
            | Instr::Rovm
            | Instr::Rsxm
            | Instr::Ssxm
            | Instr::Spm
            | Instr::Pac
            | Instr::Apac
            | Instr::Spac
            | Instr::Sfl
            | Instr::Sfr
            | Instr::Idle
            | Instr::Neg
            | Instr::Ret
            | Instr::Cmpl => Fields::NoOperand,
            Instr::Mpy(operand)
            | Instr::Lt(operand)
            | Instr::Zals(operand)
            | Instr::Lact(operand)
            | Instr::Subs(operand)
            | Instr::Subc(operand)
            | Instr::Adds(operand)
            | Instr::Rpt(operand)
            | Instr::Xor(operand)
            | Instr::Or(operand)
            | Instr::And(operand)
            | Instr::Pshd(operand)
            | Instr::Popd(operand) => Fields::Memory(operand),
            Instr::Add { shift, operand }
            | Instr::Sub { shift, operand }
            | Instr::Lac { shift, operand }
            | Instr::Sacl { shift, operand }
            | Instr::Sach { shift, operand } => Fields::ShiftedMemory { shift, operand },
            Instr::Lar { register, operand } | Instr::Sar { register, operand } =>
                Fields::RegisterMemory { register, operand },
            Instr::In { port, operand } | Instr::Out { port, operand } => Fields::PortMemory {
                port,
                operand,
            },
            Instr::Mar(operand) => Fields::Pointer(operand),
            Instr::Adrk(constant)
            | Instr::Sbrk(constant)
            | Instr::Lack(constant)
            | Instr::Rptk(constant)
            | Instr::Addk(constant)
            | Instr::Subk(constant) => Fields::Constant8(constant),
            Instr::Ldpk(constant) => Fields::Constant9(constant),
            Instr::Mpyk(constant) => Fields::Constant13(constant),
            Instr::Lark { register, constant } => Fields::RegisterConstant { register, constant },
            Instr::Andk(word) | Instr::Ork(word) | Instr::Xork(word) => Fields::Word(word),
            Instr::Lalk { shift, word }
            | Instr::Adlk { shift, word }
            | Instr::Sblk { shift, word } => Fields::ShiftedWord { shift, word },
            Instr::Lrlk { register, word } => Fields::RegisterWord { register, word },
            Instr::Branch { to, operand, .. } | Instr::Call { to, operand } => Fields::Target {
                to,
                operand,
            },
        }
    }
}

impl Fields {
    /// The operand through which data memory is read or written.
    #[inline(always)]
    pub fn memory(&self) -> Option<Operand>
        ensures operand { result ≡ memory_of self.now }
        ensures fits { AreFields self.now → IfSome result IsOperand }
    {
        match *self {
            Fields::Memory(operand)
            | Fields::ShiftedMemory { operand, .. }
            | Fields::RegisterMemory { operand, .. }
            | Fields::PortMemory { operand, .. } => Some(operand),
            _ => None,
        }
    }

    /// The indirect operand through which nothing is accessed: that of MAR, jumps and CALL.
    pub fn pointer(&self) -> Option<Indirect>
        ensures operand { result ≡ pointer_of self.now }
        ensures fits { AreFields self.now → IfSome result IsIndirect }
    {
        match *self {
            Fields::Pointer(operand) | Fields::Target { operand, .. } => Some(operand),
            _ => None,
        }
    }
}

/// A row with operands as it takes them is an instruction, both ways, and what the table says of data memory is what the machine does. The
/// call does nothing.
pub fn rows_are_instructions()
    ensures whole { (i : AnInstr) → instr_of (row_of i) (fields_of i) ≡ Some i }
    ensures parts { (m : ARow) (f : SomeFields) → IfSome (instr_of m f) (IsOf m f) }
    ensures made { (m : ARow) (f : SomeFields) → FitsForm (row m).form f → (i : AnInstr) × (instr_of m f ≡ Some i) × IsInstr i }
    ensures operand { (i : AnInstr) → has_operand (row (row_of i)).memory ≡ is_some (memory_of (fields_of i)) }
    ensures keeps { (s : State) (length : ℕ) (i : AnInstr) → writes (row (row_of i)).memory ≡ false → LeavesRam s (effect s length i) }
{}
