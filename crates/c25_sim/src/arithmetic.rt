//! What instructions compute.
ghost use Rattle.std.specs.Prelude.{◌≡◌, ◌<◌, ◌*◌, ◌/◌, ◌^◌};
ghost use Rattle.c25_isa.specs.Step as spec;

use c25_isa::Change;
use word_base::signed;

/// A sum of 32 bits, which wraps.
pub fn plus(a: u32, b: u32) -> u32
    ensures { result ≡ spec.plus a b }
{
    a.wrapping_add(b)
}

/// A difference of 32 bits, which wraps.
pub fn minus(a: u32, b: u32) -> u32
    ensures { result ≡ spec.minus a b }
{
    a.wrapping_sub(b)
}

/// A word as 32 bits, with its sign or with zeros.
pub fn extended(with_sign: bool, word: u16) -> u32
    ensures { result ≡ spec.extended with_sign word }
{
    if with_sign && word >= 0x8000 {
        u32::from(word) + 0xffff_0000
    } else {
        u32::from(word)
    }
}

/// A number of 32 bits, shifted to the left by at most 15.
pub fn shifted_left(value: u32, shift: u8) -> u32
    requires { shift < 16 }
    ensures { result ≡ spec.wrap32 (value * 2 ^ shift) }
{
    value.wrapping_mul(1 << shift)
}

/// The low half of a number, shifted to the left by at most 15.
pub fn low_word(value: u32, shift: u8) -> u16
    requires { shift < 16 }
    ensures { result ≡ spec.wrap16 (value * 2 ^ shift) }
{
    (shifted_left(value, shift) % 0x1_0000) as u16
}

/// The high half of a number, shifted to the left by at most 15.
pub fn high_word(value: u32, shift: u8) -> u16
    requires { shift < 16 }
    ensures { result ≡ spec.wrap32 (value * 2 ^ shift) / 65536 }
{
    (shifted_left(value, shift) / 0x1_0000) as u16
}

/// The low 32 bits of a number.
pub fn low_32(value: i64) -> u32
    ensures { result ≡ spec.low32 value }
{
    value.rem_euclid(0x1_0000_0000) as u32
}

/// A signed word times a number.
pub fn product(word: u16, factor: i32) -> u32
    ensures { result ≡ spec.product word factor }
{
    low_32(i64::from(signed(word)) * i64::from(factor))
}

/// One step of a division of a number by a word.
pub fn divided(acc: u32, word: u16) -> u32
    ensures { result ≡ spec.divided acc word }
{
    let part = u32::from(word) * 0x8000;
    if part <= acc {
        (acc - part).wrapping_mul(2).wrapping_add(1)
    } else {
        acc.wrapping_mul(2)
    }
}

/// A number shifted to the right by one, with its sign or with zero.
pub fn half(with_sign: bool, acc: u32) -> u32
    ensures { result ≡ spec.half with_sign acc }
{
    if with_sign && acc >= 0x8000_0000 {
        acc / 2 + 0x8000_0000
    } else {
        acc / 2
    }
}

/// An address register behind an access, by AR0.
pub fn changed(change: Change, index: u16, address: u16) -> u16
    ensures { result ≡ spec.changed change index address }
{
    match change {
        Change::Stay => address,
        Change::Down => address.wrapping_sub(1),
        Change::Up => address.wrapping_add(1),
        Change::DownIndex => address.wrapping_sub(index),
        Change::UpIndex => address.wrapping_add(index),
    }
}
