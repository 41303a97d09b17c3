//! What each instruction does.
ghost use Rattle.std.specs.Prelude.{◌≡◌, ◌≢◌, ◌<◌, ℕ, Some, IsTrue};
ghost use Rattle.arrayvec.specs.ArrayVec.{array_vec_len};
ghost use Rattle.c25_isa.specs.Table.{IsIndirect, IsInstr, IsOperand};
ghost use Rattle.c25_isa.specs.Step as spec;
ghost use Rattle.c25_isa.specs.declared.operand.Operand.{Operand};
ghost use Rattle.c25_sim.specs.Answers.{event_of, behind};
ghost use Rattle.c25_sim.specs.Rows.{acc_operand, changes_acc, sets, sets_through};
ghost use Rattle.c25_isa.specs.declared.instruction.Instr.TheVariants.{Call};

use crate::arithmetic::{
    divided, extended, half, high_word, low_word, minus, plus, product, shifted_left,
};
use crate::machine::Machine;
use c25_isa::{Event, Indirect, Instr, JumpOp, Operand, TrapKind};
use word_base::{Ending, PortWord, signed};

impl Machine {
    ghost use Rattle.c25_sim.specs.MachineView.{state_of};

    // What an instruction of this length does once, where no trap comes.
    pub(crate) fn effect(&mut self, length: u8, instr: &Instr) -> Event
        requires fits { IsInstr instr.now }
        requires room { IsTrue (spec.pushes instr.now) → array_vec_len self.old.stack ≢ 8 }
        ensures event { spec.effect (state_of self.old) length instr.now ≡ event_of result (state_of self.new) }
        ensures state { state_of self.new ≡ behind (event_of result (state_of self.new)) (state_of self.old) }
    {
        match instr {
            Instr::Add { operand, .. }
            | Instr::Sub { operand, .. }
            | Instr::Lac { operand, .. }
            | Instr::Zals(operand)
            | Instr::Lact(operand)
            | Instr::Subs(operand)
            | Instr::Subc(operand)
            | Instr::Adds(operand)
            | Instr::Xor(operand)
            | Instr::Or(operand)
            | Instr::And(operand) => {
                let acc = self.combined(instr, self.read(operand));
                self.load(length, operand, acc)
            }
            Instr::Lar { .. }
            | Instr::Mpy(_)
            | Instr::Lt(_)
            | Instr::Rpt(_)
            | Instr::Pshd(_)
            | Instr::Mar(_) => {
                self.set_through(instr);
                self.go(length)
            }
            Instr::Sacl { shift, operand } => {
                self.store(length, operand, low_word(self.acc, *shift))
            }
            Instr::Sach { shift, operand } => {
                self.store(length, operand, high_word(self.acc, *shift))
            }
            Instr::Sar { register, operand } => {
                self.store(length, operand, self.ar[*register as usize])
            }
            Instr::Popd(operand) => self.pop_to(length, operand),
            Instr::In { port, operand } => self.take_to(length, *port, operand),
            Instr::Out { port, operand } => self.put(length, *port, operand),
            Instr::Idle => Event::Ended(Ending::Returned((self.acc % 0x1_0000) as u16)),
            Instr::Ret => self.ret(),
            Instr::Branch { op, to, operand } => {
                self.jump(length, operand, *to, self.is_taken(*op))
            }
            Instr::Call { to, operand } => self.call(length, operand, *to),
            Instr::Lack(_)
            | Instr::Addk(_)
            | Instr::Subk(_)
            | Instr::Pac
            | Instr::Apac
            | Instr::Spac
            | Instr::Sfl
            | Instr::Sfr
            | Instr::Neg
            | Instr::Cmpl
            | Instr::Lalk { .. }
            | Instr::Adlk { .. }
            | Instr::Sblk { .. }
            | Instr::Andk(_)
            | Instr::Ork(_)
            | Instr::Xork(_) => {
                let acc = self.accumulated(instr);
                self.get(length, acc)
            }
            Instr::Adrk(_)
            | Instr::Sbrk(_)
            | Instr::Mpyk(_)
            | Instr::Lark { .. }
            | Instr::Ldpk(_)
            | Instr::Rptk(_)
            | Instr::Dint
            | Instr::Rovm
            | Instr::Rsxm
            | Instr::Ssxm
            | Instr::Spm
            | Instr::Lrlk { .. } => {
                self.set(instr);
                self.go(length)
            }
        }
    }

    // What ACC becomes at a row that takes the word of its operand.
    fn combined(&self, instr: &Instr, word: u16) -> u32
        requires { IsInstr instr.now }
        ensures { (length : ℕ) (o : Operand) → acc_operand instr.now ≡ Some o → word ≡ spec.read (state_of self.now) o
            → spec.effect (state_of self.now) length instr.now ≡ spec.loads length (state_of self.now) o result }
    {
        match instr {
            Instr::Add { shift, .. } => plus(self.acc, self.shifted(word, *shift)),
            Instr::Sub { shift, .. } => minus(self.acc, self.shifted(word, *shift)),
            Instr::Lac { shift, .. } => self.shifted(word, *shift),
            Instr::Zals(_) => u32::from(word),
            Instr::Lact(_) => self.shifted(word, (self.t % 16) as u8),
            Instr::Subs(_) => minus(self.acc, u32::from(word)),
            Instr::Subc(_) => divided(self.acc, word),
            Instr::Adds(_) => plus(self.acc, u32::from(word)),
            Instr::Xor(_) => self.acc ^ u32::from(word),
            Instr::Or(_) => self.acc | u32::from(word),
            Instr::And(_) => self.acc & u32::from(word),
            _ => self.acc,
        }
    }

    // What ACC becomes at a row that changes it alone.
    fn accumulated(&self, instr: &Instr) -> u32
        requires { IsInstr instr.now }
        ensures { (length : ℕ) → IsTrue (changes_acc instr.now)
            → spec.effect (state_of self.now) length instr.now ≡ spec.gets length (state_of self.now) result }
    {
        match instr {
            Instr::Lack(constant) => u32::from(*constant),
            Instr::Addk(constant) => plus(self.acc, u32::from(*constant)),
            Instr::Subk(constant) => minus(self.acc, u32::from(*constant)),
            Instr::Pac => self.p,
            Instr::Apac => plus(self.acc, self.p),
            Instr::Spac => minus(self.acc, self.p),
            Instr::Sfl => shifted_left(self.acc, 1),
            Instr::Sfr => half(self.sxm, self.acc),
            Instr::Neg => minus(0, self.acc),
            Instr::Cmpl => u32::MAX - self.acc,
            Instr::Lalk { shift, word } => self.shifted(*word, *shift),
            Instr::Adlk { shift, word } => plus(self.acc, self.shifted(*word, *shift)),
            Instr::Sblk { shift, word } => minus(self.acc, self.shifted(*word, *shift)),
            Instr::Andk(word) => self.acc & u32::from(*word),
            Instr::Ork(word) => self.acc | u32::from(*word),
            Instr::Xork(word) => self.acc ^ u32::from(*word),
            _ => self.acc,
        }
    }

    // Changes what a row changes that touches neither ACC nor memory.
    fn set(&mut self, instr: &Instr)
        requires { IsInstr instr.now }
        ensures { (length : ℕ) → IsTrue (sets instr.now)
            → spec.effect (state_of self.old) length instr.now ≡ spec.goes length (state_of self.new) }
    {
        match instr {
            Instr::Adrk(constant) => {
                let word = self.ar[self.arp as usize].wrapping_add(u16::from(*constant));
                self.set_register(self.arp, word);
            }
            Instr::Sbrk(constant) => {
                let word = self.ar[self.arp as usize].wrapping_sub(u16::from(*constant));
                self.set_register(self.arp, word);
            }
            Instr::Mpyk(constant) => self.p = product(self.t, i32::from(*constant)),
            Instr::Lark { register, constant } => {
                self.set_register(*register, u16::from(*constant));
            }
            Instr::Lrlk { register, word } => self.set_register(*register, *word),
            Instr::Ldpk(constant) => self.dp = *constant,
            Instr::Rptk(constant) => self.repeats = Some(u16::from(*constant) + 1),
            Instr::Rovm => self.ovm = false,
            Instr::Rsxm => self.sxm = false,
            Instr::Ssxm => self.sxm = true,
            Instr::Spm => self.pm = 0,
            _ => {}
        }
    }

    // Changes what a row changes that moves a word of memory into a register but ACC, or follows an operand alone.
    fn set_through(&mut self, instr: &Instr)
        requires fits { IsInstr instr.now }
        requires room { IsTrue (spec.pushes instr.now) → array_vec_len self.old.stack ≢ 8 }
        ensures { (length : ℕ) → IsTrue (sets_through instr.now)
            → spec.effect (state_of self.old) length instr.now ≡ spec.goes length (state_of self.new) }
    {
        match instr {
            Instr::Lar { register, operand } => {
                let word = self.read(operand);
                self.follow(operand);
                self.set_register(*register, word);
            }
            Instr::Mpy(operand) => {
                self.p = product(self.t, signed(self.read(operand)));
                self.follow(operand);
            }
            Instr::Lt(operand) => {
                self.t = self.read(operand);
                self.follow(operand);
            }
            Instr::Rpt(operand) => {
                self.repeats = Some(self.read(operand) % 256 + 1);
                self.follow(operand);
            }
            Instr::Pshd(operand) => {
                self.push(self.read(operand));
                self.follow(operand);
            }
            Instr::Mar(indirect) => self.follow_indirect(indirect),
            _ => {}
        }
    }

    // A word as SXM extends it, shifted to the left.
    fn shifted(&self, word: u16, shift: u8) -> u32
        requires { shift < 16 }
        ensures { result ≡ spec.shifted (state_of self.now) word shift }
    {
        shifted_left(extended(self.sxm, word), shift)
    }

    // Whether a jump is taken.
    fn is_taken(&self, op: JumpOp) -> bool
        ensures { result ≡ spec.holds op (state_of self.now) }
    {
        let is_negative = self.acc >= 0x8000_0000;
        let is_zero = self.acc == 0;
        match op {
            JumpOp::B => true,
            JumpOp::Bgz => !(is_negative || is_zero),
            JumpOp::Blez => is_negative || is_zero,
            JumpOp::Blz => is_negative,
            JumpOp::Bgez => !is_negative,
            JumpOp::Bnz => !is_zero,
            JumpOp::Bz => is_zero,
        }
    }

    // A trap at the present word.
    pub(crate) fn trap(&self, kind: TrapKind) -> Event
        ensures { event_of result (state_of self.now) ≡ spec.Trapped kind (state_of self.now).pc }
    {
        Event::Trap { kind, at: self.pc }
    }

    // Goes on behind the word.
    fn go(&mut self, length: u8) -> Event
        ensures { spec.goes length (state_of self.old) ≡ event_of result (state_of self.new) }
    {
        self.go_on(length);
        Event::Ran
    }

    // ACC becomes this.
    fn get(&mut self, length: u8, acc: u32) -> Event
        ensures { spec.gets length (state_of self.old) acc ≡ event_of result (state_of self.new) }
    {
        self.acc = acc;
        self.go(length)
    }

    // ACC becomes this, behind an operand.
    fn load(&mut self, length: u8, operand: &Operand, acc: u32) -> Event
        requires { IsOperand operand.now }
        ensures { spec.loads length (state_of self.old) operand.now acc ≡ event_of result (state_of self.new) }
    {
        self.acc = acc;
        self.follow(operand);
        self.go(length)
    }

    // A word goes into memory.
    fn store(&mut self, length: u8, operand: &Operand, word: u16) -> Event
        requires { IsOperand operand.now }
        ensures { spec.stores length (state_of self.old) operand.now word ≡ event_of result (state_of self.new) }
    {
        let address = self.address(operand);
        self.write(address, word);
        self.follow(operand);
        self.go(length)
    }

    // The top of the stack goes into memory.
    fn pop_to(&mut self, length: u8, operand: &Operand) -> Event
        requires { IsOperand operand.now }
        ensures event { spec.pops_to length (state_of self.old) operand.now (state_of self.old).stack ≡ event_of result (state_of self.new) }
        ensures state { state_of self.new ≡ behind (event_of result (state_of self.new)) (state_of self.old) }
    {
        match self.pop() {
            Some(word) => self.store(length, operand, word),
            None => self.trap(TrapKind::StackEmpty),
        }
    }

    // The next word of a port goes into memory, or the run ends.
    fn take_to(&mut self, length: u8, port: u8, operand: &Operand) -> Event
        requires port { port < 16 }
        requires operand { IsOperand operand.now }
        ensures event { spec.takes length (state_of self.old) port operand.now ((state_of self.old).input port)
            ≡ event_of result (state_of self.new) }
        ensures state { state_of self.new ≡ behind (event_of result (state_of self.new)) (state_of self.old) }
    {
        match self.take(port) {
            Some(word) => self.store(length, operand, word),
            None => Event::Ended(Ending::InputEnded(port)),
        }
    }

    // A word of memory goes out.
    fn put(&mut self, length: u8, port: u8, operand: &Operand) -> Event
        requires port { port < 16 }
        requires operand { IsOperand operand.now }
        ensures { spec.Put (port, spec.read (state_of self.old) operand.now) (spec.onward length (spec.after_operand (state_of self.old) operand.now))
            ≡ event_of result (state_of self.new) }
    {
        let word = self.read(operand);
        self.follow(operand);
        self.go_on(length);
        Event::Out(PortWord::new(port, word))
    }

    // The top of the stack goes into PC.
    fn ret(&mut self) -> Event
        ensures event { spec.returns (state_of self.old) (state_of self.old).stack ≡ event_of result (state_of self.new) }
        ensures state { state_of self.new ≡ behind (event_of result (state_of self.new)) (state_of self.old) }
    {
        match self.pop() {
            Some(word) => {
                self.pc = word;
                Event::Ran
            }
            None => self.trap(TrapKind::StackEmpty),
        }
    }

    // The address behind the call is pushed, and the run goes on at its target.
    fn call(&mut self, length: u8, operand: &Indirect, to: u16) -> Event
        requires operand { IsIndirect operand.now }
        requires room { array_vec_len self.old.stack ≢ 8 }
        ensures { spec.effect (state_of self.old) length (Call to operand.now) ≡ event_of result (state_of self.new) }
    {
        self.push(self.pc.wrapping_add(u16::from(length)));
        self.jump(length, operand, to, true)
    }

    // Goes on at a word, or behind the jump. The operand counts either way.
    fn jump(&mut self, length: u8, operand: &Indirect, to: u16, is_taken: bool) -> Event
        requires { IsIndirect operand.now }
        ensures { spec.jumps length (state_of self.old) operand.now to is_taken ≡ event_of result (state_of self.new) }
    {
        self.follow_indirect(operand);
        if is_taken {
            self.pc = to;
            return Event::Ran;
        }
        self.go(length)
    }
}
