//! What a machine holds, for who looks at it between its steps.
ghost use Rattle.std.specs.Prelude.{◌≡◌, ◌<◌, length, reverse, slice_index_or};
ghost use Rattle.c25_isa.specs.State.{words_at};

use crate::machine::Machine;

/// The registers of a machine and its modes.
#[derive(Clone, Copy, PartialEq, Eq)]
pub struct Registers {
    pub acc: u32,
    pub t: u16,
    pub p: u32,
    /// AR0 to AR7.
    pub ar: [u16; 8],
    /// The number of the current address register, from 0 to 7.
    pub arp: u8,
    /// The page of direct operands, from 0 to 511.
    pub dp: u16,
    pub sxm: bool,
    pub ovm: bool,
    /// The shift mode of products.
    pub pm: u8,
}

impl Machine {
    ghost use Rattle.c25_sim.specs.MachineView.{state_of};

    /// The registers and modes.
    pub fn registers(&self) -> Registers
        ensures acc { result.acc ≡ (state_of self.now).acc }
        ensures t { result.t ≡ (state_of self.now).t }
        ensures p { result.p ≡ (state_of self.now).p }
        ensures ar { words_at result.ar ≡ (state_of self.now).ar }
        ensures arp { result.arp ≡ (state_of self.now).arp }
        ensures dp { result.dp ≡ (state_of self.now).dp }
        ensures sxm { result.sxm ≡ (state_of self.now).sxm }
        ensures ovm { result.ovm ≡ (state_of self.now).ovm }
        ensures pm { result.pm ≡ (state_of self.now).pm }
    {
        Registers {
            acc: self.acc,
            t: self.t,
            p: self.p,
            ar: self.ar,
            arp: self.arp,
            dp: self.dp,
            sxm: self.sxm,
            ovm: self.ovm,
            pm: self.pm,
        }
    }

    /// The address of the word that the next step does.
    pub fn pc(&self) -> u16
        ensures { result ≡ (state_of self.now).pc }
    {
        self.pc
    }

    /// The word of data memory at an address.
    pub fn ram_word(&self, at: u16) -> u16
        ensures { result ≡ (state_of self.now).ram at }
    {
        self.ram[usize::from(at)]
    }

    /// How many words the hardware stack holds, from 0 to 8.
    pub fn depth(&self) -> u8
        ensures { result ≡ length (state_of self.now).stack }
    {
        self.stack.len() as u8
    }

    /// A word of the hardware stack, of which 0 is the oldest.
    pub fn stack_word(&self, i: u8) -> u16
        requires { i < length (state_of self.now).stack }
        ensures { result ≡ slice_index_or (reverse (state_of self.now).stack) i 0 }
    {
        self.stack[usize::from(i)]
    }
}
