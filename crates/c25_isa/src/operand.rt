//! Where an instruction finds its word in data memory.
ghost use Rattle.std.specs.Prelude.{◌≡◌};
ghost use Rattle.c25_isa.specs.Table.{IsIndirect, IsOperand, indirect_byte, operand_byte};
ghost use Rattle.c25_isa.specs.Decode.{change_of, next_of, indirect_of, operand_of};

/// How an indirect access changes its address register afterwards.
#[derive(Clone, Copy, PartialEq, Eq)]
pub enum Change {
    /// `*`
    Stay,
    /// `*-`
    Down,
    /// `*+`
    Up,
    /// `*0-`: less AR0
    DownIndex,
    /// `*0+`: plus AR0
    UpIndex,
}

impl Change {
    // By the high four bits of an indirect byte.
    fn from_high(high: u8) -> Option<Self>
        ensures { result ≡ change_of high }
    {
        match high {
            8 => Some(Change::Stay),
            9 => Some(Change::Down),
            10 => Some(Change::Up),
            13 => Some(Change::DownIndex),
            14 => Some(Change::UpIndex),
            _ => None,
        }
    }
}

/// The word at the current address register. `next` is the register, below 8, that is current
/// afterwards, where that changes.
#[derive(Clone, Copy)]
pub struct Indirect {
    pub change: Change,
    pub next: Option<u8>,
}

impl Indirect {
    /// The operand byte, from 80h on.
    pub fn byte(&self) -> u8
        requires { IsIndirect self.now }
        ensures { result ≡ indirect_byte self.now }
    {
        let code = match self.change {
            Change::Stay => 0x80,
            Change::Down => 0x90,
            Change::Up => 0xa0,
            Change::DownIndex => 0xd0,
            Change::UpIndex => 0xe0,
        };
        match self.next {
            None => code,
            Some(register) => code + 8 + register,
        }
    }

    /// The indirect operand of a byte, where the byte is one.
    pub fn from_byte(byte: u8) -> Option<Self>
        ensures { result ≡ indirect_of byte }
    {
        Some(Indirect {
            change: Change::from_high(byte / 16)?,
            next: next_from_low(byte % 16)?,
        })
    }
}

// The register that is current afterwards, by the low four bits of an indirect byte.
fn next_from_low(low: u8) -> Option<Option<u8>>
    ensures { result ≡ next_of low }
{
    if low == 0 {
        Some(None)
    } else if low < 8 {
        None
    } else {
        Some(Some(low - 8))
    }
}

/// Where an instruction finds its word.
#[derive(Clone, Copy)]
pub enum Operand {
    /// The word at this offset, below 128, of the current page.
    Direct(u8),
    Indirect(Indirect),
}

impl Operand {
    /// The operand byte.
    pub fn byte(&self) -> u8
        requires { IsOperand self.now }
        ensures { result ≡ operand_byte self.now }
    {
        match self {
            Operand::Direct(offset) => *offset,
            Operand::Indirect(indirect) => indirect.byte(),
        }
    }

    /// The operand of a byte, where the byte is one.
    pub fn from_byte(byte: u8) -> Option<Self>
        ensures { result ≡ operand_of byte }
    {
        if byte < 128 {
            Some(Operand::Direct(byte))
        } else {
            Some(Operand::Indirect(Indirect::from_byte(byte)?))
        }
    }
}
