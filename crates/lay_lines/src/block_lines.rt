//! The lines of blocks, read one by one.
ghost use Rattle.std.specs.Prelude.{◌≡◌, ◌≢◌, ◌↔◌, ◌<◌, ◌≤◌, ◌*◌, ℕ, List, All, MatchOption, IfOk, IsTrue};
ghost use Rattle.lay_model.specs.Sequences.{Block};
ghost use Rattle.lay_lines.specs.BlockText.{spaced, block_line, IsBlockOf};
ghost use Rattle.text_base.specs.Fields.{IsSpacedOff};

use crate::fields::{front_scalar, front_weight};
use lay_model::{Block, ScalarList};
use std::alloc::Global;
use word_base::NoMemory;

// The accesses of a line, each behind a space and of one of so many scalars.
fn read_accesses(alloc: Global, bytes: &[u8], scalars: u8) -> Result<Option<Vec<u8>>, NoMemory>
    requires { IsSpacedOff bytes.now }
    ensures { IfOk result (λ found. MatchOption found
        ((all : List ℕ) → All (λ scalar. scalar < scalars) all → bytes.now ≢ spaced all)
        (λ accesses. All (λ scalar. scalar < scalars) accesses.items × (bytes.now ≡ spaced accesses.items))) }
{
    let mut accesses = Vec::new(alloc);
    let mut rest = bytes;
    while let Some((scalar, after)) = front_scalar(rest, scalars) {
        accesses.push(scalar)?;
        rest = after;
    }
    if rest.is_empty() {
        Ok(Some(accesses))
    } else {
        Ok(None)
    }
}

// Whether a block of this weight and so many accesses counts so much at most.
fn is_room(weight: u32, accesses: usize, room: u64) -> bool
    ensures { IsTrue result ↔ (weight * accesses ≤ room) }
{
    match u64::from(weight).checked_mul(accesses as u64) {
        Some(counted) => counted <= room,
        None => false,
    }
}

/// The block that the line is of, where it counts so much at most.
pub fn read_block(
    alloc: Global,
    line: &[u8],
    scalars: u8,
    room: u64,
) -> Result<Option<Block>, NoMemory>
    ensures { IfOk result (λ found. MatchOption found
        ((b : Block) → IsBlockOf scalars room b → line.now ≢ block_line b)
        (λ b. IsBlockOf scalars room b × (line.now ≡ block_line b))) }
{
    let Some((weight, rest)) = front_weight(line) else {
        return Ok(None);
    };
    let Some(accesses) = read_accesses(alloc, rest, scalars)? else {
        return Ok(None);
    };
    if accesses.is_empty() || !is_room(weight, accesses.len(), room) {
        return Ok(None);
    }
    Ok(Some(Block::new(weight, ScalarList::new(accesses))))
}
