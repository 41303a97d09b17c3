//! When a word can't be run.
ghost use Rattle.std.specs.Prelude.{◌≡◌, ◌==◌, ◌&&◌, ◌||◌, not, length, IfSome};
ghost use Rattle.c25_isa.specs.Table.{IsInstr, IsOperand};
ghost use Rattle.c25_isa.specs.Step as spec;

use crate::machine::Machine;
use c25_isa::{Change, Fields, Instr, Operand, TrapKind};

/// The first word of data RAM.
const FIRST_RAM_WORD: u16 = 0x300;

impl Machine {
    ghost use Rattle.c25_sim.specs.MachineView.{state_of};

    // The trap that comes at an instruction, the first that holds.
    pub(crate) fn trap_at(&self, instr: &Instr) -> Option<TrapKind>
        requires { IsInstr instr.now }
        ensures { result ≡ spec.trap_of (state_of self.now) instr.now }
    {
        if self.overflows(instr) {
            return Some(TrapKind::StackFull);
        }
        if self.underflows(instr) {
            return Some(TrapKind::StackEmpty);
        }
        if self.meets_mode(instr) {
            return Some(TrapKind::Mode);
        }
        if self.divides_badly(instr) {
            return Some(TrapKind::Divide);
        }
        if self.repeats_badly(instr) {
            return Some(TrapKind::Repeat);
        }
        if self.changes_its_own(instr) {
            return Some(TrapKind::SameRegister);
        }
        if self.lacks_ram(instr) {
            return Some(TrapKind::NoRam);
        }
        None
    }

    fn overflows(&self, instr: &Instr) -> bool
        ensures { result ≡ (spec.pushes instr.now && (length (state_of self.now).stack == 8)) }
    {
        pushes(instr) && self.stack.is_full()
    }

    fn underflows(&self, instr: &Instr) -> bool
        ensures { result ≡ (spec.pops instr.now && (length (state_of self.now).stack == 0)) }
    {
        pops(instr) && self.stack.is_empty()
    }

    // Whether a sum meets OVM, or a product a shift.
    fn meets_mode(&self, instr: &Instr) -> bool
        ensures { result ≡ ((spec.sums instr.now && (state_of self.now).ovm) || (spec.takes_product instr.now && not ((state_of self.now).pm == 0))) }
    {
        sums(instr) && self.ovm || takes_product(instr) && self.pm != 0
    }

    fn repeats_badly(&self, instr: &Instr) -> bool
        ensures { result ≡ spec.repeats_badly (state_of self.now).repeats (spec.can_repeat instr.now) }
    {
        self.repeats.is_some() && !can_repeat(instr)
    }

    fn divides_badly(&self, instr: &Instr) -> bool
        requires { IsInstr instr.now }
        ensures { result ≡ spec.divides_badly (state_of self.now) instr.now }
    {
        match instr {
            Instr::Subc(operand) => self.read(operand) >= 0x8000 || self.acc >= 0x8000_0000,
            _ => false,
        }
    }

    fn changes_its_own(&self, instr: &Instr) -> bool
        ensures { result ≡ spec.changes_its_own (state_of self.now).arp instr.now }
    {
        match instr.fields() {
            Fields::RegisterMemory { register, operand } => changes(register, self.arp, &operand),
            _ => false,
        }
    }

    fn lacks_ram(&self, instr: &Instr) -> bool
        requires { IsInstr instr.now }
        ensures { result ≡ spec.lacks_ram (state_of self.now) (spec.data_operand instr.now) }
    {
        match instr.fields().memory() {
            Some(operand) => self.address(&operand) < FIRST_RAM_WORD,
            None => false,
        }
    }
}

// Whether an operand changes a register, by the current one.
fn changes(register: u8, current: u8, operand: &Operand) -> bool
    ensures { result ≡ spec.changes register current operand.now }
{
    match operand {
        Operand::Direct(_) => false,
        Operand::Indirect(indirect) => indirect.change != Change::Stay && register == current,
    }
}

fn pushes(instr: &Instr) -> bool
    ensures { result ≡ spec.pushes instr.now }
{
    matches!(instr, Instr::Pshd(_) | Instr::Call { .. })
}

fn pops(instr: &Instr) -> bool
    ensures { result ≡ spec.pops instr.now }
{
    matches!(instr, Instr::Popd(_) | Instr::Ret)
}

// Whether a sum or difference is formed, which OVM would cut.
fn sums(instr: &Instr) -> bool
    ensures { result ≡ spec.sums instr.now }
{
    match instr {
        Instr::Add { .. }
        | Instr::Adds(_)
        | Instr::Sub { .. }
        | Instr::Subs(_)
        | Instr::Subc(_)
        | Instr::Addk(_)
        | Instr::Subk(_)
        | Instr::Adlk { .. }
        | Instr::Sblk { .. }
        | Instr::Apac
        | Instr::Spac
        | Instr::Neg => true,
        _ => false,
    }
}

// Whether P is read, which PM would shift.
fn takes_product(instr: &Instr) -> bool
    ensures { result ≡ spec.takes_product instr.now }
{
    matches!(instr, Instr::Pac | Instr::Apac | Instr::Spac)
}

fn can_repeat(instr: &Instr) -> bool
    ensures { result ≡ spec.can_repeat instr.now }
{
    match instr {
        Instr::Add { .. }
        | Instr::Adds(_)
        | Instr::Sub { .. }
        | Instr::Subs(_)
        | Instr::Subc(_)
        | Instr::Sacl { .. }
        | Instr::Sach { .. }
        | Instr::Sfl
        | Instr::Sfr
        | Instr::Apac
        | Instr::Spac => true,
        _ => false,
    }
}
