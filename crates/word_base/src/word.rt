//! Readings of words, and division.
ghost use Rattle.std.specs.Prelude.{◌≡◌, ◌≤ℤ◌, ◌⊎◌, ◌↔◌, pos, negsuc, int_div, int_rem, IsNone, IfSome};
ghost use Rattle.word_base.specs.Words.{signed_of, zero_extended, low16, HasNoQuotient};

/// A word by its sign bit: from -32768 to 32767.
pub fn signed(word: u16) -> i32
    ensures value { result ≡ signed_of word }
    ensures low { negsuc 32767 ≤ℤ result }
    ensures high { result ≤ℤ pos 32767 }
{
    if word < 0x8000 {
        i32::from(word)
    } else {
        i32::from(word) - 0x1_0000
    }
}

/// A word without a sign: from 0 to 65535.
pub fn zero_ext(word: u16) -> i32
    ensures { result ≡ zero_extended word }
{
    i32::from(word)
}

/// The low 16 bits of a number.
pub fn wrap16(value: i64) -> u16
    ensures { result ≡ low16 value }
{
    value.rem_euclid(0x1_0000) as u16
}

/// A quotient, cut toward zero. There is none by 0, and none where it isn't of 32 bits.
pub fn div_trunc(a: i32, b: i32) -> Option<i32>
    ensures none { IsNone result ↔ HasNoQuotient a b }
    ensures value { IfSome result (λ q. q ≡ int_div a b) }
{
    a.checked_div(b)
}

/// A remainder, with the sign of `a`. There is one where there is a quotient.
pub fn rem_trunc(a: i32, b: i32) -> Option<i32>
    ensures none { IsNone result ↔ HasNoQuotient a b }
    ensures value { IfSome result (λ r. r ≡ int_rem a b) }
{
    a.checked_rem(b)
}
