//! Reading port files.
ghost use Rattle.std.specs.Prelude.{◌≡◌, ◌⊎◌, ℕ, List, MatchOption, MatchResult, IfOk, IfErr};
ghost use Rattle.c25_image.specs.PortText.{IsHexDigit, IsHexWord, IsPortLine, PortText, IsFirstBad, PortSays};
ghost use Rattle.c25_image.specs.PortReading.{IsBehindBlanks};
ghost use Rattle.c25_image.specs.declared.fault.PortFault.TheVariants as port_faults;

use crate::fault::PortFault;
use std::alloc::Global;
use text_base::{front_until, next_line, read_decimal};
use word_base::{PortWord, Ports};

/// The most digits that a word has.
const MOST_DIGITS: usize = 4;

/// The greatest port.
const LAST_PORT: u64 = 15;

// The value of a digit of either case.
fn value_of(byte: u8) -> Option<u16>
    ensures { MatchOption result ((value : ℕ) → IsHexDigit byte value → ⊥) (λ value. IsHexDigit byte value) }
{
    match byte {
        b'0'..=b'9' => Some(u16::from(byte - b'0')),
        b'a'..=b'f' => Some(u16::from(byte - b'a') + 10),
        b'A'..=b'F' => Some(u16::from(byte - b'A') + 10),
        _ => None,
    }
}

// The word that one to four digits spell.
fn read_word(digits: &[u8]) -> Option<u16>
    ensures { MatchOption result ((word : ℕ) → IsHexWord digits.now word → ⊥) (λ word. IsHexWord digits.now word) }
{
    if digits.is_empty() || digits.len() > MOST_DIGITS {
        return None;
    }
    let mut word = 0;
    for digit in digits {
        word = word * 16 + value_of(*digit)?;
    }
    Some(word)
}

// What stands behind the spaces at the front.
fn behind_blanks(bytes: &[u8]) -> &[u8]
    ensures { IsBehindBlanks bytes.now result.now }
{
    let mut rest = bytes;
    while let Some(after) = rest.strip_prefix(b" ") {
        rest = after;
    }
    rest
}

// The word for a port that the line gives.
fn read_line(line: &[u8]) -> Option<PortWord>
    ensures { MatchOption result ((put : ℕ × ℕ) → IsPortLine line.now put → ⊥) (λ put. IsPortLine line.now put) }
{
    let (digits, rest) = front_until(line, b' ')?;
    let port = read_decimal(digits)?;
    if port > LAST_PORT {
        return None;
    }
    let word = read_word(behind_blanks(rest))?;
    Some(PortWord::new(port as u8, word))
}

/// What a port file gives: for each of its lines that isn't blank a word for a port, in order.
///
/// A line is a port from 0 to 15 in decimal, one space or more, and one to four hexadecimal digits
/// of either case. One carriage return before its line feed belongs to the end of a line, and the
/// last line may lack its line feed. `BadLine` names the first line that is neither blank nor of
/// this form; blank lines count.
pub fn read_ports(alloc: Global, bytes: &[u8]) -> Result<Ports, PortFault>
    // What is read is what the lines give.
    ensures text { IfOk result (PortText bytes.now) }
    // What lines give is read, unless memory is wanting.
    ensures written { (puts : List (ℕ × ℕ)) → PortText bytes.now puts → MatchResult result (λ ports. ports ≡ puts) (λ fault. fault ≡ port_faults.NoMemory) }
    // Which fault it is, and where.
    ensures fault { IfErr result (PortSays bytes.now) }
    // Where a line is the first bad one, it is answered, unless memory is wanting.
    ensures only { (line : ℕ) → IsFirstBad bytes.now line → MatchResult result (λ _. ⊥) (λ found. (found ≡ port_faults.BadLine line) ⊎ (found ≡ port_faults.NoMemory)) }
{
    let mut puts = Vec::new(alloc);
    let mut rest = bytes;
    let mut number = 1;
    while !rest.is_empty() {
        let (line, after) = next_line(rest);
        if !line.is_empty() {
            let Some(put) = read_line(line) else {
                return Err(PortFault::BadLine { line: number });
            };
            puts.push(put)?;
        }
        rest = after;
        number += 1;
    }
    Ok(Ports::new(puts))
}
