//! What commands show.
ghost use Rattle.std.specs.Prelude.{◌≡◌, ◌++◌, OnOk};
ghost use Rattle.text_base.specs.Lines.{with_feed};
ghost use Rattle.c25_image.specs.StopLines.{ending_line, trap_line};
ghost use Rattle.c25_sim.specs.MachineView.{state_of};
ghost use Rattle.c25_debug.specs.Looks.{hex8, spaced, registers_line, memory_text, stack_line, stopped_line};

use c25_image::{push_ending, push_trap};
use c25_isa::TrapKind;
use c25_sim::Machine;
use text_base::{push_decimal, push_hex};
use word_base::{Ending, NoMemory};

// A number of 32 bits.
fn push_hex8(text: &mut Vec<u8>, number: u32) -> Result<(), NoMemory>
    ensures { OnOk result (text.new.items ≡ text.old.items ++ hex8 number) }
{
    push_hex(text, (number / 65_536) as u16)?;
    push_hex(text, (number % 65_536) as u16)?;
    Ok(())
}

// Words, each behind one space.
fn push_spaced(text: &mut Vec<u8>, words: &[u16]) -> Result<(), NoMemory>
    ensures { OnOk result (text.new.items ≡ text.old.items ++ spaced words.now) }
{
    for word in words {
        text.push(b' ')?;
        push_hex(text, *word)?;
    }
    Ok(())
}

/// The line of the registers.
pub(crate) fn push_registers(text: &mut Vec<u8>, machine: &Machine) -> Result<(), NoMemory>
    ensures { OnOk result (text.new.items ≡ text.old.items ++ with_feed (registers_line (state_of machine.now))) }
{
    let registers = machine.registers();
    text.extend_from_slice(b"acc ")?;
    push_hex8(text, registers.acc)?;
    text.extend_from_slice(b" t ")?;
    push_hex(text, registers.t)?;
    text.extend_from_slice(b" p ")?;
    push_hex8(text, registers.p)?;
    text.extend_from_slice(b" ar")?;
    push_spaced(text, &registers.ar)?;
    text.extend_from_slice(b" arp ")?;
    push_decimal(text, u64::from(registers.arp))?;
    text.extend_from_slice(b" dp ")?;
    push_decimal(text, u64::from(registers.dp))?;
    text.extend_from_slice(b" pc ")?;
    push_hex(text, machine.pc())?;
    text.push(b'\n')?;
    Ok(())
}

/// The lines of so many words of data memory, from an address on.
pub(crate) fn push_memory(
    text: &mut Vec<u8>,
    machine: &Machine,
    at: u16,
    count: u16,
) -> Result<(), NoMemory>
    ensures { OnOk result (text.new.items ≡ text.old.items ++ memory_text (state_of machine.now).ram at count) }
{
    let mut address = at;
    for i in 0..count {
        push_hex(text, address)?;
        text.push(b' ')?;
        push_hex(text, machine.ram_word(address))?;
        text.push(b'\n')?;
        address = address.wrapping_add(1);
    }
    Ok(())
}

/// The line of the hardware stack.
pub(crate) fn push_stack(text: &mut Vec<u8>, machine: &Machine) -> Result<(), NoMemory>
    ensures { OnOk result (text.new.items ≡ text.old.items ++ with_feed (stack_line (state_of machine.now).stack)) }
{
    let depth = machine.depth();
    text.extend_from_slice(b"stack ")?;
    push_decimal(text, u64::from(depth))?;
    for i in 0..depth {
        text.push(b' ')?;
        push_hex(text, machine.stack_word(i))?;
    }
    text.push(b'\n')?;
    Ok(())
}

/// The line of a stop behind so many steps.
pub(crate) fn push_stopped(text: &mut Vec<u8>, pc: u16, steps: u64) -> Result<(), NoMemory>
    ensures { OnOk result (text.new.items ≡ text.old.items ++ with_feed (stopped_line pc steps)) }
{
    text.extend_from_slice(b"stopped ")?;
    push_hex(text, pc)?;
    text.extend_from_slice(b" after ")?;
    push_decimal(text, steps)?;
    text.extend_from_slice(b" steps\n")?;
    Ok(())
}

/// The line of an end.
pub(crate) fn push_end_line(text: &mut Vec<u8>, ending: Ending) -> Result<(), NoMemory>
    ensures { OnOk result (text.new.items ≡ text.old.items ++ with_feed (ending_line ending)) }
{
    push_ending(text, ending)?;
    text.push(b'\n')?;
    Ok(())
}

/// The line of a trap.
pub(crate) fn push_trap_line(text: &mut Vec<u8>, kind: TrapKind, at: u16) -> Result<(), NoMemory>
    ensures { OnOk result (text.new.items ≡ text.old.items ++ with_feed (trap_line kind at)) }
{
    push_trap(text, kind, at)?;
    text.push(b'\n')?;
    Ok(())
}
