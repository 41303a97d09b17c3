//! Following a script over one machine, which never goes back.
ghost use Rattle.std.specs.Prelude.{◌≡◌, ◌<◌, ◌≤◌, ◌+◌, ◌^◌, length, All, IfOk, OnOk};
ghost use Rattle.c25_isa.specs.State.{State};
ghost use Rattle.c25_debug.specs.declared.command.Command.TheVariants as commands;
ghost use Rattle.c25_debug.specs.Script.{InRange};
ghost use Rattle.c25_debug.specs.Session as spec;
ghost use Rattle.c25_debug.specs.Standing.{IsBehind, Did};

use crate::breakpoints::Breakpoints;
use crate::command::Command;
use crate::lines::{
    push_end_line, push_memory, push_registers, push_stack, push_stopped, push_trap_line,
};
use c25_image::push_out;
use c25_isa::{Event, Image, Start};
use c25_sim::Machine;
use std::alloc::Global;
use word_base::{NoMemory, Ports};

/// A machine between two commands, how many steps it has done, and where it stops.
#[derive(Drop)]
struct Debugger {
    machine: Machine,
    steps: u64,
    breakpoints: Breakpoints,
}

impl Debugger {
    // Does steps up to a breakpoint, an end, a trap or this many, and puts their outputs and the line of the stop.
    fn go(&mut self, text: &mut Vec<u8>, count: u32) -> Result<(), NoMemory>
        requires some { 0 < count }
        requires room { self.old.steps + count < 2 ^ 64 }
        ensures steps { self.new.steps ≤ self.old.steps + count }
        ensures did { (s : State) → IsBehind s self.old → OnOk result (Did (commands.Go count) s self.old self.new text.old.items text.new.items) }
    {
        for i in 0..count {
            self.steps += 1;
            match self.machine.step() {
                Event::Ran => {}
                Event::Out(out) => push_out(text, out)?,
                Event::Ended(ending) => return push_end_line(text, ending),
                Event::Trap { kind, at } => return push_trap_line(text, kind, at),
            }
            if self.breakpoints.has(self.machine.pc()) {
                break;
            }
        }
        push_stopped(text, self.machine.pc(), self.steps)
    }

    // Does a command.
    fn follow(&mut self, text: &mut Vec<u8>, command: Command) -> Result<(), NoMemory>
        requires in_range { InRange command }
        requires room { self.old.steps + 100000 < 2 ^ 64 }
        ensures steps { self.new.steps ≤ self.old.steps + 100000 }
        ensures did { (s : State) → IsBehind s self.old → OnOk result (Did command s self.old self.new text.old.items text.new.items) }
    {
        match command {
            Command::Break(at) => self.breakpoints.set(at, true),
            Command::Delete(at) => self.breakpoints.set(at, false),
            Command::Go(count) => self.go(text, count)?,
            Command::Regs => push_registers(text, &self.machine)?,
            Command::Mem { at, count } => push_memory(text, &self.machine, at, count)?,
            Command::Stack => push_stack(text, &self.machine)?,
        }
        Ok(())
    }
}

/// What a script shows of the run of an image from zeros, on what the ports are given (docs/COMMANDS.md, "debug").
///
/// The script has at most 1,000 commands with their numbers in range, as `read_script` gives them. Only the want of memory
/// is refused: the text has a line for each output, which may be 100,000,000 lines.
pub fn session(
    alloc: Global,
    image: &Image,
    ports: &Ports,
    script: &[Command],
) -> Result<Vec<u8>, NoMemory>
    requires short { length script.now ≤ 1000 }
    requires in_range { All InRange script.now }
    ensures text { IfOk result (λ text. spec.Session image.now.words ports.now script.now text.items) }
{
    let lines = Vec::from_slice(alloc, ports.lines())?;
    let start = Start::zero(alloc, image)?;
    let mut debugger = Debugger {
        machine: Machine::new(alloc, start, Ports::new(lines))?,
        steps: 0,
        breakpoints: Breakpoints::new(alloc)?,
    };
    let mut text = Vec::new(alloc);
    for command in script {
        debugger.follow(&mut text, *command)?;
    }
    Ok(text)
}
