//! The blocks of a walk against those of a sequence.
ghost use Rattle.std.specs.Prelude.{◌≡◌, ◌<◌, map, slice_index, All};
ghost use Rattle.std.specs.Str.{bytes_eq};
ghost use Rattle.lay_model.specs.Sequences.{IsSequence};
ghost use Rattle.cc_check.specs.Findings.{expected_blocks, first_difference};

use crate::addresses::Addresses;
use c25_walk::AddressBlock;
use lay_cert::CertFrame;
use lay_model::{Blocks, MOST_SCALARS};

// Whether these are the addresses of the accesses.
fn are_accessed(addresses: &Addresses, accesses: &[u8], walked: &[u16]) -> bool
    requires { All (λ s. s < 64) accesses.now }
    ensures { result ≡ bytes_eq (map (slice_index addresses.now.table) accesses.now) walked.now }
{
    if accesses.len() != walked.len() {
        return false;
    }
    for (index, scalar) in accesses.iter().enumerate() {
        if addresses.address(*scalar) != u32::from(walked[index]) {
            return false;
        }
    }
    true
}

// The first block that differs.
fn first_difference_by(
    addresses: &Addresses,
    blocks: &Blocks,
    walked: &[AddressBlock],
) -> Option<u64>
    requires { All (λ b. All (λ s. s < 64) b.accesses) blocks.now }
    ensures { result ≡ first_difference (map (λ b. map (slice_index addresses.now.table) b.accesses) blocks.now) walked.now }
{
    let common = blocks.len().min(walked.len());
    for index in 0..common {
        if !are_accessed(addresses, blocks.accesses(index), walked[index].addresses()) {
            return Some(index as u64);
        }
    }
    if blocks.len() == walked.len() {
        None
    } else {
        Some(common as u64)
    }
}

/// The first block of a walk whose addresses aren't those of the frame's accesses, or that stands on one side alone.
pub(crate) fn first_difference(frame: &CertFrame, walked: &[AddressBlock]) -> Option<u64>
    ensures difference { result ≡ first_difference (expected_blocks frame.now) walked.now }
    ensures sequence { IsSequence frame.now.seq }
{
    let seq = frame.seq();
    let few = seq.scalars() <= MOST_SCALARS;
    prove!(few);
    first_difference_by(&Addresses::of(frame), seq.blocks(), walked)
}
