//! What accumulator code does to the accumulator and to its operand.

/// An operation: a row of the instruction table that neither jumps nor moves an address register, or `Point`. Shifts and ports are those
/// of the row.
#[derive(Clone, Copy, PartialEq, Eq)]
pub enum AccOp {
    /// Makes the low half of the accumulator the address of `AccOperand::Pointed`. The accumulator stays.
    Point,
    /// From 0 to 15.
    Add { shift: u8 },
    /// From 0 to 15.
    Sub { shift: u8 },
    /// From 0 to 15.
    Lac { shift: u8 },
    Mpy,
    Lt,
    Zals,
    Lact,
    Subs,
    Adds,
    Xor,
    Or,
    And,
    /// From 0 to 7.
    Sacl { shift: u8 },
    /// From 0 to 7.
    Sach { shift: u8 },
    /// Below 16.
    In { port: u8 },
    /// Below 16.
    Out { port: u8 },
    Mpyk,
    Lack,
    Addk,
    Subk,
    /// From 0 to 15.
    Lalk { shift: u8 },
    /// From 0 to 15.
    Adlk { shift: u8 },
    /// From 0 to 15.
    Sblk { shift: u8 },
    Andk,
    Ork,
    Xork,
    Dint,
    Rovm,
    Rsxm,
    Ssxm,
    Spm,
    Pac,
    Apac,
    Spac,
    Sfl,
    Sfr,
    Neg,
    Cmpl,
}

/// A question about all 32 bits of the accumulator, read with their sign: the conditions of the conditional branches.
#[derive(Clone, Copy, PartialEq, Eq)]
pub enum Test {
    /// Greater than zero.
    Gz,
    /// At most zero.
    Lez,
    /// Less than zero.
    Lz,
    /// At least zero.
    Gez,
    /// Not zero.
    Nz,
    /// Zero.
    Z,
}
