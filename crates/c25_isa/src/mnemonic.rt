//! The instruction table: its rows, by their mnemonics.
ghost use Rattle.std.specs.Prelude.{◌≡◌};
ghost use Rattle.c25_isa.specs.Rows as table;

use crate::instruction::JumpOp;

/// A row of the instruction table, by its mnemonic.
#[derive(Clone, Copy)]
pub enum Mnemonic {
    Add,
    Sub,
    Lac,
    Lar,
    Mpy,
    Lt,
    Zals,
    Lact,
    Subs,
    Subc,
    Adds,
    Rpt,
    Xor,
    Or,
    And,
    Pshd,
    Mar,
    Sacl,
    Sach,
    Sar,
    Popd,
    Adrk,
    Sbrk,
    In,
    Mpyk,
    Lark,
    Ldpk,
    Lack,
    Rptk,
    Addk,
    Subk,
    Dint,
    Rovm,
    Rsxm,
    Ssxm,
    Spm,
    Pac,
    Apac,
    Spac,
    Sfl,
    Sfr,
    Idle,
    Neg,
    Ret,
    Cmpl,
    Lrlk,
    Lalk,
    Adlk,
    Sblk,
    Andk,
    Ork,
    Xork,
    Out,
    Branch(JumpOp),
    Call,
}

/// Which operands a row takes, in the order of `Fields`.
#[derive(Clone, Copy)]
pub enum Form {
    NoOperand,
    /// A word of data memory.
    Memory,
    /// A shift below `shifts`, and a word of data memory.
    ShiftedMemory { shifts: u8 },
    /// An address register, 0 to 7, and a word of data memory.
    RegisterMemory,
    /// A port, 0 to 15, and a word of data memory.
    PortMemory,
    /// An indirect operand through which nothing is accessed.
    Pointer,
    /// From 0 to 255.
    Constant8,
    /// From 0 to 511.
    Constant9,
    /// From -4096 to 4095.
    Constant13,
    /// An address register, 0 to 7, and a constant from 0 to 255.
    RegisterConstant,
    /// A second word.
    Word,
    /// A shift from 0 to 15, and a second word.
    ShiftedWord,
    /// An address register, 0 to 7, and a second word.
    RegisterWord,
    /// A program word as second word, and an indirect operand through which nothing is accessed.
    Target,
}

/// What a row does to the word of data memory that it has as operand.
#[derive(Clone, Copy)]
pub enum MemoryUse {
    /// It has none.
    Neither,
    Reads,
    Writes,
}

/// What the table says of a row.
#[derive(Clone, Copy)]
pub struct Row {
    /// In upper case.
    pub name: &'static str,
    /// The first word where all operands are 0.
    pub base: u16,
    pub form: Form,
    pub memory: MemoryUse,
}

impl Mnemonic {
    /// The row.
    pub fn row(self) -> Row
        ensures { table.row_with result.name.now result.base result.form result.memory ≡ table.row self }
    {
        let (name, base, form, memory) = self.columns();
        Row {
            name,
            base,
            form,
            memory,
        }
    }

    // What the row has, in the order of `Row`.
    fn columns(self) -> (&'static str, u16, Form, MemoryUse)
        ensures { table.row_with result.0.now result.1 result.2 result.3 ≡ table.row self }
    {
        use MemoryUse::{Neither, Reads, Writes};
        match self {
            Mnemonic::Add => ("ADD", 0x0000, Form::ShiftedMemory { shifts: 16 }, Reads),
            Mnemonic::Sub => ("SUB", 0x1000, Form::ShiftedMemory { shifts: 16 }, Reads),
            Mnemonic::Lac => ("LAC", 0x2000, Form::ShiftedMemory { shifts: 16 }, Reads),
            Mnemonic::Lar => ("LAR", 0x3000, Form::RegisterMemory, Reads),
            Mnemonic::Mpy => ("MPY", 0x3800, Form::Memory, Reads),
            Mnemonic::Lt => ("LT", 0x3c00, Form::Memory, Reads),
            Mnemonic::Zals => ("ZALS", 0x4100, Form::Memory, Reads),
            Mnemonic::Lact => ("LACT", 0x4200, Form::Memory, Reads),
            Mnemonic::Subs => ("SUBS", 0x4500, Form::Memory, Reads),
            Mnemonic::Subc => ("SUBC", 0x4700, Form::Memory, Reads),
            Mnemonic::Adds => ("ADDS", 0x4900, Form::Memory, Reads),
            Mnemonic::Rpt => ("RPT", 0x4b00, Form::Memory, Reads),
            Mnemonic::Xor => ("XOR", 0x4c00, Form::Memory, Reads),
            Mnemonic::Or => ("OR", 0x4d00, Form::Memory, Reads),
            Mnemonic::And => ("AND", 0x4e00, Form::Memory, Reads),
            Mnemonic::Pshd => ("PSHD", 0x5400, Form::Memory, Reads),
            Mnemonic::Mar => ("MAR", 0x5500, Form::Pointer, Neither),
            Mnemonic::Sacl => ("SACL", 0x6000, Form::ShiftedMemory { shifts: 8 }, Writes),
            Mnemonic::Sach => ("SACH", 0x6800, Form::ShiftedMemory { shifts: 8 }, Writes),
            Mnemonic::Sar => ("SAR", 0x7000, Form::RegisterMemory, Writes),
            Mnemonic::Popd => ("POPD", 0x7a00, Form::Memory, Writes),
            Mnemonic::Adrk => ("ADRK", 0x7e00, Form::Constant8, Neither),
            Mnemonic::Sbrk => ("SBRK", 0x7f00, Form::Constant8, Neither),
            Mnemonic::In => ("IN", 0x8000, Form::PortMemory, Writes),
            Mnemonic::Mpyk => ("MPYK", 0xa000, Form::Constant13, Neither),
            Mnemonic::Lark => ("LARK", 0xc000, Form::RegisterConstant, Neither),
            Mnemonic::Ldpk => ("LDPK", 0xc800, Form::Constant9, Neither),
            Mnemonic::Lack => ("LACK", 0xca00, Form::Constant8, Neither),
            Mnemonic::Rptk => ("RPTK", 0xcb00, Form::Constant8, Neither),
            Mnemonic::Addk => ("ADDK", 0xcc00, Form::Constant8, Neither),
            Mnemonic::Subk => ("SUBK", 0xcd00, Form::Constant8, Neither),
            Mnemonic::Dint => ("DINT", 0xce01, Form::NoOperand, Neither),
            Mnemonic::Rovm => ("ROVM", 0xce02, Form::NoOperand, Neither),
            Mnemonic::Rsxm => ("RSXM", 0xce06, Form::NoOperand, Neither),
            Mnemonic::Ssxm => ("SSXM", 0xce07, Form::NoOperand, Neither),
            Mnemonic::Spm => ("SPM", 0xce08, Form::NoOperand, Neither),
            Mnemonic::Pac => ("PAC", 0xce14, Form::NoOperand, Neither),
            Mnemonic::Apac => ("APAC", 0xce15, Form::NoOperand, Neither),
            Mnemonic::Spac => ("SPAC", 0xce16, Form::NoOperand, Neither),
            Mnemonic::Sfl => ("SFL", 0xce18, Form::NoOperand, Neither),
            Mnemonic::Sfr => ("SFR", 0xce19, Form::NoOperand, Neither),
            Mnemonic::Idle => ("IDLE", 0xce1f, Form::NoOperand, Neither),
            Mnemonic::Neg => ("NEG", 0xce23, Form::NoOperand, Neither),
            Mnemonic::Ret => ("RET", 0xce26, Form::NoOperand, Neither),
            Mnemonic::Cmpl => ("CMPL", 0xce27, Form::NoOperand, Neither),
            Mnemonic::Lrlk => ("LRLK", 0xd000, Form::RegisterWord, Neither),
            Mnemonic::Lalk => ("LALK", 0xd001, Form::ShiftedWord, Neither),
            Mnemonic::Adlk => ("ADLK", 0xd002, Form::ShiftedWord, Neither),
            Mnemonic::Sblk => ("SBLK", 0xd003, Form::ShiftedWord, Neither),
            Mnemonic::Andk => ("ANDK", 0xd004, Form::Word, Neither),
            Mnemonic::Ork => ("ORK", 0xd005, Form::Word, Neither),
            Mnemonic::Xork => ("XORK", 0xd006, Form::Word, Neither),
            Mnemonic::Out => ("OUT", 0xe000, Form::PortMemory, Reads),
            Mnemonic::Branch(op) => (op.name(), op.base(), Form::Target, Neither),
            Mnemonic::Call => ("CALL", 0xfe00, Form::Target, Neither),
        }
    }
}

impl JumpOp {
    // The mnemonic.
    fn name(self) -> &'static str
        ensures { result.now ≡ table.jump_name self }
    {
        match self {
            JumpOp::Bgz => "BGZ",
            JumpOp::Blez => "BLEZ",
            JumpOp::Blz => "BLZ",
            JumpOp::Bgez => "BGEZ",
            JumpOp::Bnz => "BNZ",
            JumpOp::Bz => "BZ",
            JumpOp::B => "B",
        }
    }

    // The first word where the operand byte is 0.
    fn base(self) -> u16
        ensures { result ≡ table.jump_word self }
    {
        match self {
            JumpOp::Bgz => 0xf100,
            JumpOp::Blez => 0xf200,
            JumpOp::Blz => 0xf300,
            JumpOp::Bgez => 0xf400,
            JumpOp::Bnz => 0xf500,
            JumpOp::Bz => 0xf600,
            JumpOp::B => 0xff00,
        }
    }
}
