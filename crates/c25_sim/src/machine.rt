//! The machine's state in memory.
ghost use Rattle.std.specs.Prelude.{◌≡◌, ◌<◌, ◌≢◌, ◌∷◌, Some, None, IfOk, length, vec_len};
ghost use Rattle.arrayvec.specs.ArrayVec.{array_vec_len};
ghost use Rattle.c25_isa.specs.Table.{IsIndirect, IsOperand};
ghost use Rattle.c25_isa.specs.State.{write};
ghost use Rattle.c25_isa.specs.Step as spec;

use crate::arithmetic::changed;
use crate::port_input::PortInput;
use arrayvec::ArrayVec;
use c25_isa::{Indirect, Operand};

/// How many words the hardware stack holds.
pub const STACK_WORDS: usize = 8;

/// The registers, modes and memories of a machine, the words that its ports have left, and how often the word at PC still
/// runs.
#[derive(Drop)]
pub struct Machine {
    pub(crate) acc: u32,
    pub(crate) t: u16,
    pub(crate) p: u32,
    pub(crate) ar: [u16; 8],
    pub(crate) arp: u8,
    pub(crate) dp: u16,
    pub(crate) pc: u16,
    pub(crate) sxm: bool,
    pub(crate) ovm: bool,
    pub(crate) pm: u8,
    pub(crate) stack: ArrayVec<u16, STACK_WORDS>,
    pub(crate) repeats: Option<u16>,
    pub(crate) program: Vec<u16>,
    pub(crate) ram: Vec<u16>,
    pub(crate) inputs: Vec<PortInput>,
    ghost arp_fits: { arp < 8 },
    ghost dp_fits: { dp < 512 },
    ghost program_fits: { vec_len program ≡ 65536 },
    ghost ram_fits: { vec_len ram ≡ 65536 },
    ghost inputs_fit: { vec_len inputs ≡ 16 },
}

impl Machine {
    ghost use Rattle.c25_sim.specs.MachineView.{state_of};
    ghost use Rattle.c25_sim.specs.Taken.{Takes, Pops};

    // The address of an operand.
    pub(crate) fn address(&self, operand: &Operand) -> u16
        requires { IsOperand operand.now }
        ensures { result ≡ spec.address (state_of self.now) operand.now }
    {
        match operand {
            Operand::Direct(offset) => self.dp * 128 + u16::from(*offset),
            Operand::Indirect(_) => self.ar[self.arp as usize],
        }
    }

    // The word of an operand.
    pub(crate) fn read(&self, operand: &Operand) -> u16
        requires { IsOperand operand.now }
        ensures { result ≡ spec.read (state_of self.now) operand.now }
    {
        self.ram[self.address(operand) as usize]
    }

    // Writes a word of data memory.
    pub(crate) fn write(&mut self, address: u16, word: u16)
        ensures { state_of self.new ≡ record (state_of self.old) { ram = write (state_of self.old).ram address word } }
    {
        self.ram[address as usize] = word;
    }

    // Writes an address register.
    pub(crate) fn set_register(&mut self, register: u8, word: u16)
        requires { register < 8 }
        ensures { state_of self.new ≡ spec.with_register (state_of self.old) register word }
    {
        self.ar[register as usize] = word;
    }

    // Changes the current register, and then which one is current.
    pub(crate) fn follow_indirect(&mut self, indirect: &Indirect)
        requires { IsIndirect indirect.now }
        ensures { state_of self.new ≡ spec.after_indirect (state_of self.old) indirect.now }
    {
        let current = self.arp as usize;
        self.ar[current] = changed(indirect.change, self.ar[0], self.ar[current]);
        if let Some(register) = indirect.next {
            self.arp = register;
        }
    }

    // The registers behind an operand.
    pub(crate) fn follow(&mut self, operand: &Operand)
        requires { IsOperand operand.now }
        ensures { state_of self.new ≡ spec.after_operand (state_of self.old) operand.now }
    {
        match operand {
            Operand::Direct(_) => {}
            Operand::Indirect(indirect) => self.follow_indirect(indirect),
        }
    }

    // PC behind a word of this length.
    pub(crate) fn go_on(&mut self, length: u8)
        ensures { state_of self.new ≡ spec.onward length (state_of self.old) }
    {
        self.pc = self.pc.wrapping_add(u16::from(length));
    }

    // The next word of a port.
    pub(crate) fn take(&mut self, port: u8) -> Option<u16>
        requires { port < 16 }
        ensures { Takes (state_of self.old) port result (state_of self.new) }
    {
        self.inputs[port as usize].take()
    }

    // Pushes a word where there is room.
    pub(crate) fn push(&mut self, word: u16)
        requires { array_vec_len self.old.stack ≢ 8 }
        ensures { state_of self.new ≡ record (state_of self.old) { stack = word ∷ (state_of self.old).stack } }
    {
        let _ = self.stack.try_push(word);
    }

    // Pops a word.
    pub(crate) fn pop(&mut self) -> Option<u16>
        ensures { Pops (state_of self.old) result (state_of self.new) }
    {
        self.stack.pop()
    }
}
