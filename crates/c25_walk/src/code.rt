//! The instructions of a range.
ghost use Rattle.std.specs.Prelude.{◌≡◌, ◌+◌, ◌<◌, ◌≤◌, ℕ, All, MatchOption, IfOk, Some, drop, length, vec_len};
ghost use Rattle.c25_isa.specs.Walk.{code_from, no_more};
ghost use Rattle.c25_walk.specs.Decoding.{IsPlaced, StandsAt};
ghost use Rattle.c25_walk.specs.Marks.{IsInTable};

use c25_isa::{Instr, decode};
use std::alloc::Global;
use std::marker::Model;
use word_base::NoMemory;

/// An instruction, its address, and that of the word behind it, at most 65,536.
#[derive(Drop)]
pub(crate) struct Placed {
    at: u16,
    instr: Instr,
    behind: u32,
}

impl Model for Placed {
    ghost use Rattle.c25_isa.specs.Walk.{Placed};
    ghost use Rattle.c25_walk.specs.Decoding.{IsPlaced};

    ghost Value = { Placed };

    ghost view = { λ p. record { at = p.at; instr = p.instr; behind = p.behind } };

    ghost invariant = { λ p. IsPlaced (record { at = p.at; instr = p.instr; behind = p.behind }) };
}

impl Placed {
    pub(crate) fn at(&self) -> u16
        ensures { result ≡ self.now.at }
    {
        self.at
    }

    pub(crate) fn instr(&self) -> &Instr
        ensures instr { result.now ≡ self.now.instr }
        ensures placed { IsPlaced self.now }
    {
        &self.instr
    }

    pub(crate) fn behind(&self) -> u32
        ensures { result ≡ self.now.behind }
    {
        self.behind
    }
}

/// The instructions of a range before its first bad word, and where that is, if there is one.
#[derive(Drop)]
pub(crate) struct RangeCode {
    pub(crate) placed: Vec<Placed>,
    pub(crate) fault: Option<u16>,
}

// The instruction at a word of a range, and its length. Where its second word would lie outside, there is none.
fn instruction_at(words: &[u16], index: usize) -> Option<(Instr, u8)>
    requires { index < length words.now }
    ensures { MatchOption result
        ((at : ℕ) → code_from at 0 (drop index words.now) ≡ no_more (Some at))
        (StandsAt words.now index) }
{
    let second = if index + 1 < words.len() {
        words[index + 1]
    } else {
        0
    };
    let (instr, length) = decode(words[index], second)?;
    if words.len() - index < usize::from(length) {
        return None;
    }
    Some((instr, length))
}

/// Decodes the words of a range in order from the first one, which has this address.
pub(crate) fn decode_range(alloc: Global, words: &[u16], first: u16) -> Result<RangeCode, NoMemory>
    requires { first + length words.now ≤ 65536 }
    ensures code { IfOk result (λ code. code_from first 0 words.now ≡ record { placed = code.placed.items; fault = code.fault }) }
    ensures few { IfOk result (λ code. vec_len code.placed ≤ length words.now) }
    ensures within { IfOk result (λ code. All (IsInTable first (length words.now + 1)) code.placed.items) }
{
    let mut placed = Vec::new(alloc);
    let mut index = 0;
    while index < words.len() {
        let at = first + index as u16;
        let Some((instr, length)) = instruction_at(words, index) else {
            return Ok(RangeCode {
                placed,
                fault: Some(at),
            });
        };
        placed.push(Placed {
            at,
            instr,
            behind: u32::from(at) + u32::from(length),
        })?;
        index += usize::from(length);
    }
    Ok(RangeCode {
        placed,
        fault: None,
    })
}
