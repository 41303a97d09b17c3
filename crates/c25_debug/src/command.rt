//! The commands of scripts.

/// A command of a script.
#[derive(Clone, Copy, PartialEq, Eq)]
pub enum Command {
    /// Makes a program address a breakpoint. Where it is one already, nothing changes.
    Break(u16),
    /// Takes the breakpoint at a program address away. Where there is none, nothing changes.
    Delete(u16),
    /// Does so many steps, from 1 to 100,000, or fewer where a breakpoint, an end or a trap comes.
    Go(u32),
    /// Shows the registers.
    Regs,
    /// Shows so many words of data memory, from 1 to 256, the one at `at` first. Addresses wrap to 0 behind ffff.
    Mem { at: u16, count: u16 },
    /// Shows the hardware stack.
    Stack,
}
