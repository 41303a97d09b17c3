//! Instructions, and the words that stand for them.
ghost use Rattle.std.specs.Prelude.{◌≡◌};

use crate::operand::{Indirect, Operand};

/// When a jump is taken, by the 32 bits of ACC as a signed number.
#[derive(Clone, Copy)]
pub enum JumpOp {
    /// Always.
    B,
    /// Above 0.
    Bgz,
    /// At most 0.
    Blez,
    /// Below 0.
    Blz,
    /// At least 0.
    Bgez,
    /// Other than 0.
    Bnz,
    /// At 0.
    Bz,
}

/// An instruction, by its mnemonic. An extended word has 32 bits, with its sign where SXM is 1. A constant has 8 bits
/// where nothing else is said. Sums wrap at 32 bits.
#[derive(Clone, Copy)]
pub enum Instr {
    /// ACC plus the extended word, shifted to the left by 0 to 15.
    Add {
        shift: u8,
        operand: Operand,
    },
    /// ACC less the extended word, shifted to the left by 0 to 15.
    Sub {
        shift: u8,
        operand: Operand,
    },
    /// ACC becomes the extended word, shifted to the left by 0 to 15.
    Lac {
        shift: u8,
        operand: Operand,
    },
    /// Loads an address register, 0 to 7.
    Lar {
        register: u8,
        operand: Operand,
    },
    /// P becomes signed T times the signed word.
    Mpy(Operand),
    /// T becomes the word.
    Lt(Operand),
    /// ACC becomes the word without a sign.
    Zals(Operand),
    /// ACC becomes the extended word, shifted to the left by the low four bits of T.
    Lact(Operand),
    /// ACC less the word without a sign.
    Subs(Operand),
    /// One step of a division of ACC by the word.
    Subc(Operand),
    /// ACC plus the word without a sign.
    Adds(Operand),
    /// The next word runs once more than the low eight bits of the word say.
    Rpt(Operand),
    /// The low half of ACC with the word; the high half stays.
    Xor(Operand),
    /// The low half of ACC with the word; the high half stays.
    Or(Operand),
    /// The low half of ACC with the word; the high half becomes 0.
    And(Operand),
    /// Pushes the word.
    Pshd(Operand),
    /// Changes the current register, or the register that is current, and accesses nothing.
    Mar(Indirect),
    /// Stores the low 16 bits of ACC, shifted to the left by 0 to 7.
    Sacl {
        shift: u8,
        operand: Operand,
    },
    /// Stores bits 31 to 16 of ACC, shifted to the left by 0 to 7.
    Sach {
        shift: u8,
        operand: Operand,
    },
    /// Stores an address register, 0 to 7.
    Sar {
        register: u8,
        operand: Operand,
    },
    /// Pops into memory.
    Popd(Operand),
    /// The current register plus a constant.
    Adrk(u8),
    /// The current register less a constant.
    Sbrk(u8),
    /// The next word of a port, 0 to 15, goes into memory.
    In {
        port: u8,
        operand: Operand,
    },
    /// P becomes signed T times a constant from -4096 to 4095.
    Mpyk(i16),
    /// An address register, 0 to 7, becomes a constant.
    Lark {
        register: u8,
        constant: u8,
    },
    /// DP becomes a constant from 0 to 511.
    Ldpk(u16),
    /// ACC becomes a constant.
    Lack(u8),
    /// The next word runs once more than the constant says.
    Rptk(u8),
    /// ACC plus a constant.
    Addk(u8),
    /// ACC less a constant.
    Subk(u8),
    /// Has no effect here.
    Dint,
    /// OVM becomes 0.
    Rovm,
    /// SXM becomes 0.
    Rsxm,
    /// SXM becomes 1.
    Ssxm,
    /// PM becomes 0.
    Spm,
    /// ACC becomes P.
    Pac,
    /// ACC plus P.
    Apac,
    /// ACC less P.
    Spac,
    /// ACC is shifted to the left by one.
    Sfl,
    /// ACC is shifted to the right by one, with its sign where SXM is 1.
    Sfr,
    /// Ends the run.
    Idle,
    /// ACC becomes its negative.
    Neg,
    /// PC is popped.
    Ret,
    /// ACC becomes its complement.
    Cmpl,
    /// An address register, 0 to 7, becomes a word.
    Lrlk {
        register: u8,
        word: u16,
    },
    /// ACC becomes the extended word, shifted to the left by 0 to 15.
    Lalk {
        shift: u8,
        word: u16,
    },
    /// ACC plus the extended word, shifted to the left by 0 to 15.
    Adlk {
        shift: u8,
        word: u16,
    },
    /// ACC less the extended word, shifted to the left by 0 to 15.
    Sblk {
        shift: u8,
        word: u16,
    },
    /// The low half of ACC with a word; the high half becomes 0.
    Andk(u16),
    /// The low half of ACC with a word; the high half stays.
    Ork(u16),
    /// The low half of ACC with a word; the high half stays.
    Xork(u16),
    /// Puts the word to a port, 0 to 15.
    Out {
        port: u8,
        operand: Operand,
    },
    /// Goes on at a word where the condition on ACC holds.
    Branch {
        op: JumpOp,
        to: u16,
        operand: Indirect,
    },
    /// Pushes the address behind its two words, and goes on at a word.
    Call {
        to: u16,
        operand: Indirect,
    },
}
