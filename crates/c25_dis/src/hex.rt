//! Constants in hexadecimal digits. Words are written by `c25_image`.
ghost use Rattle.std.specs.Prelude.{◌≡◌, ◌<◌, ◌++◌, OnOk};
ghost use Rattle.c25_image.specs.Hex.{hex_digit};
ghost use Rattle.c25_dis.specs.Operands.{hex2, hex3};

use word_base::NoMemory;

// A lower-case digit.
fn digit_of(value: u16) -> u8
    requires { value < 16 }
    ensures { result ≡ hex_digit value }
{
    if value < 10 {
        b'0' + value as u8
    } else {
        b'a' + (value - 10) as u8
    }
}

/// Puts two digits behind a text.
pub(crate) fn push_hex_2(text: &mut Vec<u8>, number: u16) -> Result<(), NoMemory>
    ensures { OnOk result (text.new.items ≡ text.old.items ++ hex2 number) }
{
    text.extend_from_slice(&[digit_of(number / 16 % 16), digit_of(number % 16)])?;
    Ok(())
}

/// Puts three digits behind a text.
pub(crate) fn push_hex_3(text: &mut Vec<u8>, number: u16) -> Result<(), NoMemory>
    ensures { OnOk result (text.new.items ≡ text.old.items ++ hex3 number) }
{
    text.push(digit_of(number / 256 % 16))?;
    push_hex_2(text, number)
}
