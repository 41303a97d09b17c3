//! Reading scripts.
ghost use Rattle.std.specs.Prelude.{◌≡◌, ◌≢◌, ◌⊎◌, ◌<◌, ◌≤◌, ◌^◌, ◌∷◌, ◌++◌, ℕ, List, length, vec_len, All, MatchOption, MatchResult, IfOk, IfErr, codes, decimal};
ghost use Rattle.word_base.specs.Name.{IsWithin};
ghost use Rattle.text_base.specs.Hex.{hex4};
ghost use Rattle.c25_debug.specs.declared.command.Command.{Command};
ghost use Rattle.c25_debug.specs.declared.command.Command.TheVariants as commands;
ghost use Rattle.c25_debug.specs.declared.fault.ScriptFault.TheVariants as faults;
ghost use Rattle.c25_debug.specs.Script.{InRange, Spells, ScriptText, IsFirstBad, ScriptSays};

use crate::command::Command;
use crate::fault::ScriptFault;
use std::alloc::Global;
use text_base::{FilledLines, behind_word, front_word, number_behind, read_hex};

/// The most commands of a script.
const MOST_COMMANDS: usize = 1000;

/// The most steps of one command.
const MOST_STEPS: u64 = 100_000;

/// The most words that one command shows.
const MOST_WORDS: u64 = 256;

// The address behind a prefix.
fn address_behind(line: &[u8], prefix: &[u8]) -> Option<u16>
    ensures { MatchOption result ((at : ℕ) → at < 2 ^ 16 → line.now ≢ prefix.now ++ hex4 at) (λ at. line.now ≡ prefix.now ++ hex4 at) }
{
    let digits = behind_word(line, prefix)?;
    let at = read_hex(digits)?;
    Some(at)
}

// The number behind a prefix, from 1 to the most.
fn count_behind(line: &[u8], prefix: &[u8], most: u64) -> Option<u64>
    ensures { MatchOption result
        ((n : ℕ) → IsWithin 1 most n → line.now ≢ prefix.now ++ decimal n)
        (λ n. IsWithin 1 most n × (line.now ≡ prefix.now ++ decimal n)) }
{
    let count = number_behind(line, prefix)?;
    if count == 0 || count > most {
        return None;
    }
    Some(count)
}

// The words of data memory that the line shows: the first one's address, and how many.
fn read_mem(line: &[u8]) -> Option<(u16, u16)>
    ensures { MatchOption result
        ((at count : ℕ) → at < 2 ^ 16 → IsWithin 1 256 count → line.now ≢ codes "mem " ++ (hex4 at ++ (codes " " ++ decimal count)))
        (λ found. IsWithin 1 256 found.1 × (line.now ≡ codes "mem " ++ (hex4 found.0 ++ (codes " " ++ decimal found.1)))) }
{
    let fields = behind_word(line, b"mem ")?;
    let (at, rest) = front_word(fields)?;
    let count = count_behind(rest, b" ", MOST_WORDS)?;
    Some((at, count as u16))
}

// The steps that the line asks for.
fn read_go(line: &[u8]) -> Option<u32>
    ensures { MatchOption result
        ((n : ℕ) → Spells line.now (commands.Go n) → ⊥)
        (λ n. Spells line.now (commands.Go n)) }
{
    if line == b"step".as_slice() {
        return Some(1);
    }
    let count = count_behind(line, b"go ", MOST_STEPS)?;
    Some(count as u32)
}

// The command that the line spells.
fn read_command(line: &[u8]) -> Option<Command>
    ensures { MatchOption result ((command : Command) → Spells line.now command → ⊥) (λ command. Spells line.now command) }
{
    if line == b"regs".as_slice() {
        return Some(Command::Regs);
    }
    if line == b"stack".as_slice() {
        return Some(Command::Stack);
    }
    if let Some(at) = address_behind(line, b"break ") {
        return Some(Command::Break(at));
    }
    if let Some(at) = address_behind(line, b"delete ") {
        return Some(Command::Delete(at));
    }
    if let Some(count) = read_go(line) {
        return Some(Command::Go(count));
    }
    let (at, count) = read_mem(line)?;
    Some(Command::Mem { at, count })
}

/// The commands of a script, at most 1,000 of them.
///
/// A line is `break hhhh`, `delete hhhh`, `go N`, `step`, `regs`, `mem hhhh N` or `stack`. An address is four lower-case
/// hexadecimal digits. A number is from 1 to 100,000 behind `go` and from 1 to 256 behind `mem`, in decimal without a
/// leading zero. One space stands between two fields, and `step` is `go 1`. Blank lines are passed over and counted, one
/// carriage return before its line feed belongs to the end of a line, and the last line may lack its line feed. `BadLine`
/// names the first line that is neither blank nor of this form. `TooLong` comes where there is no such line and the
/// commands are more than 1,000, with their number.
pub fn read_script(alloc: Global, bytes: &[u8]) -> Result<Vec<Command>, ScriptFault>
    // What is read is what the lines spell, at most 1,000 commands.
    ensures text { IfOk result (λ script. ScriptText bytes.now script.items) }
    ensures short { IfOk result (λ script. vec_len script ≤ 1000) }
    ensures in_range { IfOk result (λ script. All InRange script.items) }
    // What lines spell is read, unless memory is wanting.
    ensures written { (script : List Command) → ScriptText bytes.now script → length script ≤ 1000
        → MatchResult result (λ found. found.items ≡ script) (λ fault. fault ≡ faults.NoMemory) }
    // Which fault it is, and where.
    ensures fault { IfErr result (ScriptSays bytes.now) }
    // Where a line is the first bad one, it is answered, unless memory is wanting.
    ensures bad { (line : ℕ) → IsFirstBad bytes.now line
        → MatchResult result (λ _. ⊥) (λ fault. (fault ≡ faults.BadLine line) ⊎ (fault ≡ faults.NoMemory)) }
    // Where the lines spell too many commands, their number is answered, unless memory is wanting.
    ensures long { (script : List Command) → ScriptText bytes.now script → 1000 < length script
        → MatchResult result (λ _. ⊥) (λ fault. (fault ≡ faults.TooLong (length script)) ⊎ (fault ≡ faults.NoMemory)) }
{
    let mut script = Vec::new(alloc);
    let mut lines = FilledLines::new(bytes);
    while let Some(line) = lines.next() {
        let Some(command) = read_command(line) else {
            return Err(ScriptFault::BadLine {
                line: lines.number(),
            });
        };
        script.push(command)?;
    }
    if script.len() > MOST_COMMANDS {
        return Err(ScriptFault::TooLong {
            count: script.len() as u64,
        });
    }
    Ok(script)
}
