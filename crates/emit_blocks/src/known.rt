//! What is known within a run.
ghost use Rattle.std.specs.Prelude.{◌≡◌, ◌/◌, ◌<◌, Some, IsTrue, true, option_to_list};
ghost use Rattle.emit_blocks.specs.Appended.{known_of};
ghost use Rattle.emit_blocks.specs.Moves as moves;
ghost use Rattle.emit_blocks.specs.Runs.{nothing_known, page_code, standing};

use c25_isa::{Change, Indirect, Instr};

/// What is known between two steps.
#[derive(Clone, Copy)]
pub(crate) struct Known {
    page: Option<u16>,
    // By the registers' numbers.
    stands: [Option<u16>; 8],
    // Whether a register is current that the next indirect operand wants.
    current: bool,
}

impl Known {
    pub(crate) fn nothing() -> Self
        ensures { known_of result ≡ nothing_known }
    {
        Known {
            page: None,
            stands: [None; 8],
            current: false,
        }
    }

    /// The load of the page that an address lies on, unless it is known.
    pub(crate) fn page_load(&self, address: u16) -> Option<Instr>
        ensures { option_to_list result ≡ page_code (known_of self.now).page address }
    {
        let page = address / 128;
        match self.page {
            Some(known) if known == page => None,
            _ => Some(Instr::Ldpk(page)),
        }
    }

    pub(crate) fn set_page(&mut self, address: u16)
        ensures { known_of self.new ≡ record (known_of self.old) { page = Some (address / 128) } }
    {
        self.page = Some(address / 128);
    }

    /// What makes a register current, unless one is already.
    pub(crate) fn made_current(&self, register: u8) -> Option<Instr>
        ensures { option_to_list result ≡ moves.made_current (known_of self.now).current register }
    {
        if self.current {
            None
        } else {
            Some(Instr::Mar(Indirect {
                change: Change::Stay,
                next: Some(register),
            }))
        }
    }

    pub(crate) fn set_current(&mut self)
        ensures { known_of self.new ≡ record (known_of self.old) { current = true } }
    {
        self.current = true;
    }

    /// What brings a register to an address.
    pub(crate) fn moved(&self, register: u8, address: u16) -> Option<Instr>
        requires { register < 8 }
        ensures { option_to_list result ≡ moves.moved register ((known_of self.now).stands register) address }
    {
        moved(register, self.stands[usize::from(register)], address)
    }

    pub(crate) fn set_standing(&mut self, register: u8, address: u16)
        requires { register < 8 }
        ensures { known_of self.new ≡ record (known_of self.old) { stands = standing (known_of self.old).stands register address } }
    {
        self.stands[usize::from(register)] = Some(address);
    }
}

// From where the register stands, if that is known.
fn moved(register: u8, stands: Option<u16>, address: u16) -> Option<Instr>
    ensures { option_to_list result ≡ moves.moved register stands address }
{
    let load = Some(Instr::Lrlk {
        register,
        word: address,
    });
    let Some(from) = stands else {
        return load;
    };
    if from == address {
        None
    } else if from < address && address - from < 256 {
        Some(Instr::Adrk((address - from) as u8))
    } else if address < from && from - address < 256 {
        Some(Instr::Sbrk((from - address) as u8))
    } else {
        load
    }
}
