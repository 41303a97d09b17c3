//! What is known of the registers along a stretch.
ghost use Rattle.std.specs.Prelude.{◌≡◌, ◌<◌, ◌+◌, ◌-◌, Some, None, option_and_then, option_map};
ghost use Rattle.std.specs.Option.{ForSome};
ghost use Rattle.c25_isa.specs.Table.{IsIndirect, IsInstr};
ghost use Rattle.c25_isa.specs.Step.{wrap16};
ghost use Rattle.c25_isa.specs.Walk as spec;
ghost use Rattle.c25_isa.specs.AddressCount as counts;

use crate::access::Access;
use crate::registers::{
    access_operand, goes_over_scalars, idle_operand, is_counted_register, moves, number_changed,
};
use c25_isa::{Change, Indirect, Instr};

/// Which register is current, and the number of each one, where that is known.
#[derive(Drop)]
pub(crate) struct Known {
    arp: Option<u8>,
    ar: [Option<u16>; 8],
    ghost arp_fits: { ForSome arp (λ register. register < 8) },
}

impl Known {
    ghost use Rattle.c25_walk.specs.KnownView.{known_of, access_of};

    // At the start of a stretch.
    pub(crate) fn nothing() -> Self
        ensures { known_of result ≡ spec.nothing_known }
    {
        Known {
            arp: None,
            ar: [None; 8],
        }
    }

    // What an instruction accesses, by what is known before it.
    pub(crate) fn access(&self, instr: &Instr) -> Access
        ensures { access_of result ≡ spec.access (known_of self.now) instr.now }
    {
        match access_operand(instr) {
            Some(_) => self.current_access(),
            None => Access::Unlisted,
        }
    }

    // An access through the current register.
    fn current_access(&self) -> Access
        ensures { access_of result ≡ spec.access_by (known_of self.now) self.now.arp }
    {
        let Some(register) = self.arp else {
            return Access::Unknown;
        };
        if !goes_over_scalars(register) {
            return Access::Unlisted;
        }
        match self.ar[usize::from(register)] {
            Some(address) => Access::Listed(address),
            None => Access::Unknown,
        }
    }

    // Whether an instruction does nothing but move an address register that is counted, or may be.
    pub(crate) fn is_address_instruction(&self, instr: &Instr) -> bool
        ensures { result ≡ counts.is_address_instruction (known_of self.now) instr.now }
    {
        match instr {
            Instr::Lark { register, .. }
            | Instr::Lrlk { register, .. }
            | Instr::Lar { register, .. } => is_counted_register(*register),
            Instr::Adrk(_) | Instr::Sbrk(_) => self.may_be_counted(),
            _ => moves(instr) && self.may_be_counted(),
        }
    }

    // Whether the current register is counted, or may be.
    fn may_be_counted(&self) -> bool
        ensures { result ≡ counts.may_be_counted self.now.arp }
    {
        match self.arp {
            Some(register) => is_counted_register(register),
            None => true,
        }
    }

    // Goes behind an instruction. What a repeat does to ARP isn't followed.
    pub(crate) fn pass(&mut self, instr: &Instr)
        requires { IsInstr instr.now }
        ensures { known_of self.new ≡ spec.known_behind (known_of self.old) instr.now }
    {
        match instr {
            Instr::Lark { register, constant } => {
                self.hold(*register, Some(u16::from(*constant)));
            }
            Instr::Lrlk { register, word } => self.hold(*register, Some(*word)),
            Instr::Lar { register, .. } => {
                self.follow_operands(instr);
                self.hold(*register, None);
            }
            Instr::Adrk(constant) => self.add(u16::from(*constant)),
            Instr::Sbrk(constant) => self.subtract(u16::from(*constant)),
            Instr::Rpt(_) => {
                self.follow_operands(instr);
                self.forget_current();
            }
            Instr::Rptk(_) => self.forget_current(),
            _ => self.follow_operands(instr),
        }
    }

    // A register holds this number from now on, or one that isn't known.
    fn hold(&mut self, register: u8, number: Option<u16>)
        requires { register < 8 }
        ensures { known_of self.new ≡ spec.holding (known_of self.old) register number }
    {
        self.ar[usize::from(register)] = number;
    }

    // The same of the current register. While it isn't known which one that is, of none the number is known.
    fn hold_current(&mut self, number: Option<u16>)
        ensures { known_of self.new ≡ spec.current_changed (known_of self.old) self.old.arp (λ _. number) }
    {
        match self.arp {
            Some(register) => self.hold(register, number),
            None => self.ar = [None; 8],
        }
    }

    // The number of the current register.
    fn current(&self) -> Option<u16>
        ensures { result ≡ option_and_then (known_of self.now).ar self.now.arp }
    {
        self.ar[usize::from(self.arp?)]
    }

    // The current register plus a constant.
    fn add(&mut self, constant: u16)
        ensures { known_of self.new ≡ spec.current_changed (known_of self.old) self.old.arp (option_map (λ a. wrap16 (a + constant))) }
    {
        self.hold_current(self.current().map(|number| number.wrapping_add(constant)));
    }

    // The current register less a constant.
    fn subtract(&mut self, constant: u16)
        ensures { known_of self.new ≡ spec.current_changed (known_of self.old) self.old.arp (option_map (λ a. wrap16 (a + (65536 - constant)))) }
    {
        self.hold_current(self.current().map(|number| number.wrapping_sub(constant)));
    }

    // It isn't known any more which register is current.
    fn forget_current(&mut self)
        ensures { known_of self.new ≡ record (known_of self.old) { arp = None } }
    {
        self.arp = None;
    }

    // Changes the current register.
    fn change(&mut self, change: Change)
        ensures { known_of self.new ≡ spec.known_behind_change (known_of self.old) change }
    {
        if change != Change::Stay {
            self.hold_current(number_changed(change, self.ar[0], self.current()));
        }
    }

    // Goes behind an indirect operand.
    fn follow(&mut self, indirect: &Indirect)
        requires { IsIndirect indirect.now }
        ensures { known_of self.new ≡ spec.known_behind_indirect (known_of self.old) (Some indirect.now) }
    {
        self.change(indirect.change);
        if let Some(register) = indirect.next {
            self.arp = Some(register);
        }
    }

    // Goes behind the operands of an instruction.
    fn follow_operands(&mut self, instr: &Instr)
        requires { IsInstr instr.now }
        ensures { known_of self.new ≡ spec.known_behind_operands (known_of self.old) instr.now }
    {
        if let Some(indirect) = access_operand(instr) {
            self.follow(&indirect);
        }
        if let Some(indirect) = idle_operand(instr) {
            self.follow(&indirect);
        }
    }
}
