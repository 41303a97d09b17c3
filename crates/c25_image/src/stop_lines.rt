//! The lines of ends and of traps, which stand behind the outputs of a run.
ghost use Rattle.std.specs.Prelude.{◌≡◌, ◌++◌, OnOk};
ghost use Rattle.c25_image.specs.StopLines.{trap_name, ending_line, trap_line};

use c25_isa::TrapKind;
use text_base::{push_decimal, push_hex};
use word_base::{Ending, NoMemory};

fn trap_name(kind: TrapKind) -> &'static str
    ensures { result.now ≡ trap_name kind }
{
    match kind {
        TrapKind::BadWord => "bad-word",
        TrapKind::StackFull => "stack-full",
        TrapKind::StackEmpty => "stack-empty",
        TrapKind::Mode => "mode",
        TrapKind::Divide => "divide",
        TrapKind::Repeat => "repeat",
        TrapKind::SameRegister => "same-register",
        TrapKind::NoRam => "no-ram",
    }
}

/// Puts the line of an ending behind a text, without its line feed.
pub fn push_ending(text: &mut Vec<u8>, ending: Ending) -> Result<(), NoMemory>
    ensures { OnOk result (text.new.items ≡ text.old.items ++ ending_line ending) }
{
    match ending {
        Ending::Returned(word) => {
            text.extend_from_slice(b"returned ")?;
            push_hex(text, word)?;
        }
        Ending::InputEnded(port) => {
            text.extend_from_slice(b"input ")?;
            push_decimal(text, u64::from(port))?;
            text.extend_from_slice(b" ended")?;
        }
    }
    Ok(())
}

/// Puts the line of a trap at a program word behind a text, without its line feed.
pub fn push_trap(text: &mut Vec<u8>, kind: TrapKind, at: u16) -> Result<(), NoMemory>
    ensures { OnOk result (text.new.items ≡ text.old.items ++ trap_line kind at) }
{
    text.extend_from_slice(b"trap ")?;
    text.extend_from_slice(trap_name(kind).as_bytes())?;
    text.extend_from_slice(b" at ")?;
    push_hex(text, at)?;
    Ok(())
}
