//! Machines, their steps and their runs.
ghost use Rattle.std.specs.Prelude.{◌≡◌, ◌≢◌, ◌<◌, [], ℕ, true, false, Some, IfOk, IfSome, OnSome, IsNone, OnOk, OnErr, IsTrue, slice_index_or, vec_len};
ghost use Rattle.arrayvec.specs.ArrayVec.{array_vec_len};
ghost use Rattle.word_base.specs.Ports.{input_of};
ghost use Rattle.c25_isa.specs.Table.{IsInstr};
ghost use Rattle.c25_isa.specs.StartView.{start_of};
ghost use Rattle.c25_isa.specs.Step as spec;
ghost use Rattle.c25_isa.specs.MachineRun.{reset, run_from};
ghost use Rattle.c25_sim.specs.Answers.{event_of, reached_of, behind, state_after, puts, StandsBeforeOutput};
ghost use Rattle.c25_sim.specs.Rows.{puts_word};
ghost use Rattle.c25_sim.specs.Taken.{of_sixteen};

use crate::machine::Machine;
use crate::port_input::PortInput;
use arrayvec::ArrayVec;
use c25_isa::{Event, Instr, RunOutcome, Start, Stop, TrapKind, decode};
use std::alloc::Global;
use word_base::{NoMemory, Outs, PortWord, Ports};

/// How many ports there are.
const PORTS: u8 = 16;

impl Machine {
    ghost use Rattle.c25_sim.specs.MachineView.{state_of};

    /// The machine behind a reset of this board, with this port input.
    pub fn new(alloc: Global, start: Start, ports: Ports) -> Result<Self, NoMemory>
        ensures { IfOk result (λ m. state_of m ≡ reset (start_of start) (of_sixteen (input_of ports))) }
    {
        let inputs = split(alloc, ports.lines())?;
        let ar = start.ar;
        Ok(Machine {
            acc: start.acc,
            t: start.t,
            p: start.p,
            ar,
            arp: start.arp,
            dp: start.dp,
            pc: 0,
            sxm: start.sxm,
            ovm: start.ovm,
            pm: start.pm,
            stack: ArrayVec::new(),
            repeats: None,
            program: start.program,
            ram: start.ram,
            inputs,
        })
    }

    /// Does one step. An end and a trap change nothing, so a further step answers the same.
    pub fn step(&mut self) -> Event
        ensures event { spec.step (state_of self.old) ≡ event_of result (state_of self.new) }
        ensures state { state_of self.new ≡ behind (spec.step (state_of self.old)) (state_of self.old) }
    {
        // With room for an output each step is done.
        self.step_within(true).unwrap_or(Event::Ran)
    }

    // Does one step, unless it would make an output that there is no room for. It is built into the loop of a run for speed.
    #[inline(always)]
    fn step_within(&mut self, has_room: bool) -> Option<Event>
        ensures waits { IsNone result → (has_room ≡ false) × (puts (spec.step (state_of self.old)) ≡ true)
            × (state_of self.new ≡ state_of self.old) }
        ensures event { IfSome result (λ e. spec.step (state_of self.old) ≡ event_of e (state_of self.new)) }
        ensures state { OnSome result (state_of self.new ≡ behind (spec.step (state_of self.old)) (state_of self.old)) }
        ensures kept { IfSome result (λ e. has_room ≡ false → puts (event_of e (state_of self.new)) ≡ false) }
    {
        let first = self.program[usize::from(self.pc)];
        let second = self.program[usize::from(self.pc.wrapping_add(1))];
        let Some((instr, length)) = decode(first, second) else {
            return Some(self.trap(TrapKind::BadWord));
        };
        if let Some(kind) = self.trap_at(&instr) {
            return Some(self.trap(kind));
        }
        if !has_room && is_out(&instr) {
            return None;
        }
        Some(self.perform(length, &instr))
    }

    // Does an instruction at which no trap comes, and counts a pending repeat.
    fn perform(&mut self, length: u8, instr: &Instr) -> Event
        requires fits { IsInstr instr.now }
        requires room { IsTrue (spec.pushes instr.now) → array_vec_len self.old.stack ≢ 8 }
        ensures event { spec.repeated (state_of self.old).repeats (state_of self.old).pc (spec.effect (state_of self.old) length instr.now)
            ≡ event_of result (state_of self.new) }
        ensures state { state_of self.new ≡ behind (event_of result (state_of self.new)) (state_of self.old) }
    {
        let (repeats, at) = (self.repeats, self.pc);
        let event = self.effect(length, instr);
        if let Some(times) = repeats {
            self.count_repeat(times, at, &event);
        }
        event
    }

    // Behind one of the times that a word runs: it stands until the last one.
    fn count_repeat(&mut self, times: u16, at: u16, event: &Event)
        ensures event { spec.repeated (Some times) at (event_of event.now (state_of self.old)) ≡ event_of event.now (state_of self.new) }
        ensures state { state_of self.new ≡ behind (event_of event.now (state_of self.new)) (state_of self.old) }
    {
        match event {
            Event::Ran | Event::Out(_) => {
                if times > 1 {
                    self.pc = at;
                    self.repeats = Some(times - 1);
                } else {
                    self.repeats = None;
                }
            }
            Event::Ended(_) | Event::Trap { .. } => {}
        }
    }

    /// Does so many steps, or fewer where the run ends or a trap comes. Where memory is wanting for an output, the machine
    /// stands before the step that makes it.
    pub fn run(&mut self, alloc: Global, steps: u64) -> Result<RunOutcome, NoMemory>
        ensures reached { IfOk result (λ r. run_from steps (state_of self.old) [] ≡ reached_of r.outs r.stop) }
        ensures state { OnOk result (state_of self.new ≡ state_after steps (state_of self.old)) }
        ensures before_an_output { OnErr result (StandsBeforeOutput steps (state_of self.old) (state_of self.new)) }
    {
        let mut outs: Vec<PortWord> = Vec::new(alloc);
        for i in 0..steps {
            let has_room = outs.reserve(1).is_ok();
            let Some(event) = self.step_within(has_room) else {
                return Err(NoMemory);
            };
            match event {
                Event::Ran => {}
                Event::Out(word) => outs.push(word)?,
                Event::Ended(ending) => return Ok(outcome(outs, Stop::Ended(ending))),
                Event::Trap { kind, at } => return Ok(outcome(outs, Stop::Trap { kind, at })),
            }
        }
        Ok(outcome(outs, Stop::Running))
    }
}

fn is_out(instr: &Instr) -> bool
    ensures { result ≡ puts_word instr.now }
{
    matches!(instr, Instr::Out { .. })
}

fn outcome(outs: Vec<PortWord>, stop: Stop) -> RunOutcome
    ensures outs { result.outs ≡ outs.items }
    ensures stop { result.stop ≡ stop }
{
    RunOutcome {
        outs: Outs::new(outs),
        stop,
    }
}

// The words of each port, in the order of their lines.
fn split(alloc: Global, lines: &[PortWord]) -> Result<Vec<PortInput>, NoMemory>
    ensures length { IfOk result (λ inputs. vec_len inputs ≡ 16) }
    ensures words { IfOk result (λ inputs. (p : ℕ) → p < 16 → slice_index_or inputs.items p [] ≡ input_of lines.now p) }
{
    let mut inputs = Vec::new(alloc);
    for port in 0..PORTS {
        inputs.push(PortInput::new(words_at(alloc, lines, port)?))?;
    }
    Ok(inputs)
}

// The words of one port.
fn words_at(alloc: Global, lines: &[PortWord], port: u8) -> Result<Vec<u16>, NoMemory>
    ensures { IfOk result (λ words. words.items ≡ input_of lines.now port) }
{
    let mut words = Vec::new(alloc);
    for line in lines {
        if line.port() == port {
            words.push(line.word())?;
        }
    }
    Ok(words)
}
