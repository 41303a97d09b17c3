//! From words to the instruction that they stand for. A first word is read by its high four bits, then the four bits
//! below them, then its low byte.
ghost use Rattle.std.specs.Prelude.{◌≡◌, ◌≢◌, ◌<◌, IfSome, IsNone, Some};
ghost use Rattle.c25_isa.specs.declared.instruction.Instr.{Instr as AnInstr};
ghost use Rattle.c25_isa.specs.Rows.{row_of};
ghost use Rattle.c25_isa.specs.Table.{IsInstr, StandsFor, first_word};
ghost use Rattle.c25_isa.specs.Decode.{decode as decode_of, decode_3, decode_4, decode_5, decode_6, decode_7, decode_ce, decode_c, decode_d, decode_f, decode_parts, jump_of, signed13};

use crate::instruction::{Instr, JumpOp};
use crate::operand::{Indirect, Operand};

/// The instruction of a first word and the word behind it, and its length in words; none where the first word is no
/// instruction's.
pub fn decode(first: u16, second: u16) -> Option<(Instr, u8)>
    ensures value { result ≡ decode_of first second }
    ensures row { IfSome result (λ r. StandsFor r.0 r.1 first second) }
    ensures none { IsNone result → (i : AnInstr) → IsInstr i → first_word i ≢ first }
    ensures one_row { (i j : AnInstr) → IsInstr i → IsInstr j → first_word i ≡ first → first_word j ≡ first → row_of i ≡ row_of j }
{
    decode_by_parts(
        (first / 4096) as u8,
        (first / 256 % 16) as u8,
        (first % 256) as u8,
        second,
    )
}

// By the parts of the first word, and the second one.
fn decode_by_parts(high: u8, n: u8, low: u8, second: u16) -> Option<(Instr, u8)>
    requires { n < 16 }
    ensures { result ≡ decode_parts high n low second }
{
    match high {
        0 => {
            let operand = Operand::from_byte(low)?;
            one_word(Instr::Add { shift: n, operand })
        }
        1 => {
            let operand = Operand::from_byte(low)?;
            one_word(Instr::Sub { shift: n, operand })
        }
        2 => {
            let operand = Operand::from_byte(low)?;
            one_word(Instr::Lac { shift: n, operand })
        }
        3 => decode_loads(n, low),
        4 => decode_word_operations(n, low),
        5 => decode_push_or_change(n, low),
        6 => decode_accumulator_stores(n, low),
        7 => decode_register_stores(n, low),
        8 => {
            let operand = Operand::from_byte(low)?;
            one_word(Instr::In { port: n, operand })
        }
        10 => one_word(Instr::Mpyk(signed_13(n as u16 * 256 + low as u16))),
        11 => one_word(Instr::Mpyk(signed_13(4096 + n as u16 * 256 + low as u16))),
        12 => decode_constants(n, low),
        13 => decode_word_constants(n, low, second),
        14 => {
            let operand = Operand::from_byte(low)?;
            one_word(Instr::Out { port: n, operand })
        }
        15 => decode_jumps(n, low, second),
        _ => None,
    }
}

// First words 3xxx.
fn decode_loads(n: u8, low: u8) -> Option<(Instr, u8)>
    ensures { result ≡ decode_3 n low }
{
    let operand = Operand::from_byte(low)?;
    one_word(match n {
        0..=7 => Instr::Lar {
            register: n,
            operand,
        },
        8 => Instr::Mpy(operand),
        12 => Instr::Lt(operand),
        _ => return None,
    })
}

// First words 4xxx.
fn decode_word_operations(n: u8, low: u8) -> Option<(Instr, u8)>
    ensures { result ≡ decode_4 n low }
{
    let operand = Operand::from_byte(low)?;
    one_word(match n {
        1 => Instr::Zals(operand),
        2 => Instr::Lact(operand),
        5 => Instr::Subs(operand),
        7 => Instr::Subc(operand),
        9 => Instr::Adds(operand),
        11 => Instr::Rpt(operand),
        12 => Instr::Xor(operand),
        13 => Instr::Or(operand),
        14 => Instr::And(operand),
        _ => return None,
    })
}

// First words 5xxx.
fn decode_push_or_change(n: u8, low: u8) -> Option<(Instr, u8)>
    ensures { result ≡ decode_5 n low }
{
    match n {
        4 => one_word(Instr::Pshd(Operand::from_byte(low)?)),
        5 => one_word(Instr::Mar(Indirect::from_byte(low)?)),
        _ => None,
    }
}

// First words 6xxx.
fn decode_accumulator_stores(n: u8, low: u8) -> Option<(Instr, u8)>
    ensures { result ≡ decode_6 n low }
{
    let operand = Operand::from_byte(low)?;
    if n < 8 {
        one_word(Instr::Sacl { shift: n, operand })
    } else {
        one_word(Instr::Sach {
            shift: n - 8,
            operand,
        })
    }
}

// First words 7xxx.
fn decode_register_stores(n: u8, low: u8) -> Option<(Instr, u8)>
    ensures { result ≡ decode_7 n low }
{
    one_word(match n {
        0..=7 => Instr::Sar {
            register: n,
            operand: Operand::from_byte(low)?,
        },
        10 => Instr::Popd(Operand::from_byte(low)?),
        14 => Instr::Adrk(low),
        15 => Instr::Sbrk(low),
        _ => return None,
    })
}

// First words cxxx.
fn decode_constants(n: u8, low: u8) -> Option<(Instr, u8)>
    ensures { result ≡ decode_c n low }
{
    one_word(match n {
        0..=7 => Instr::Lark {
            register: n,
            constant: low,
        },
        8..=9 => Instr::Ldpk((n as u16 - 8) * 256 + low as u16),
        10 => Instr::Lack(low),
        11 => Instr::Rptk(low),
        12 => Instr::Addk(low),
        13 => Instr::Subk(low),
        14 => return decode_fixed_words(low),
        _ => return None,
    })
}

// First words cexx.
fn decode_fixed_words(low: u8) -> Option<(Instr, u8)>
    ensures { result ≡ decode_ce low }
{
    one_word(match low {
        0x01 => Instr::Dint,
        0x02 => Instr::Rovm,
        0x06 => Instr::Rsxm,
        0x07 => Instr::Ssxm,
        0x08 => Instr::Spm,
        0x14 => Instr::Pac,
        0x15 => Instr::Apac,
        0x16 => Instr::Spac,
        0x18 => Instr::Sfl,
        0x19 => Instr::Sfr,
        0x1f => Instr::Idle,
        0x23 => Instr::Neg,
        0x26 => Instr::Ret,
        0x27 => Instr::Cmpl,
        _ => return None,
    })
}

// First words dxxx. Those without a shift or a register have the number 0.
fn decode_word_constants(n: u8, low: u8, word: u16) -> Option<(Instr, u8)>
    ensures { result ≡ decode_d n low word }
{
    two_words(match low {
        0 if n < 8 => Instr::Lrlk { register: n, word },
        1 => Instr::Lalk { shift: n, word },
        2 => Instr::Adlk { shift: n, word },
        3 => Instr::Sblk { shift: n, word },
        4 if n == 0 => Instr::Andk(word),
        5 if n == 0 => Instr::Ork(word),
        6 if n == 0 => Instr::Xork(word),
        _ => return None,
    })
}

// First words fxxx.
fn decode_jumps(n: u8, low: u8, to: u16) -> Option<(Instr, u8)>
    ensures { result ≡ decode_f n low to }
{
    if n == 14 {
        let operand = Indirect::from_byte(low)?;
        two_words(Instr::Call { to, operand })
    } else {
        let op = jump_from(n)?;
        let operand = Indirect::from_byte(low)?;
        two_words(Instr::Branch { op, to, operand })
    }
}

// The jump of first words fxxx.
fn jump_from(n: u8) -> Option<JumpOp>
    ensures { result ≡ jump_of n }
{
    match n {
        1 => Some(JumpOp::Bgz),
        2 => Some(JumpOp::Blez),
        3 => Some(JumpOp::Blz),
        4 => Some(JumpOp::Bgez),
        5 => Some(JumpOp::Bnz),
        6 => Some(JumpOp::Bz),
        15 => Some(JumpOp::B),
        _ => None,
    }
}

// An instruction of one word.
fn one_word(instr: Instr) -> Option<(Instr, u8)>
    ensures { result ≡ Some (instr, 1) }
{
    Some((instr, 1))
}

// An instruction of two words.
fn two_words(instr: Instr) -> Option<(Instr, u8)>
    ensures { result ≡ Some (instr, 2) }
{
    Some((instr, 2))
}

// The number of its low 13 bits.
fn signed_13(bits: u16) -> i16
    requires { bits < 8192 }
    ensures { result ≡ signed13 bits }
{
    if bits < 4096 {
        bits as i16
    } else {
        bits as i16 - 8192
    }
}
