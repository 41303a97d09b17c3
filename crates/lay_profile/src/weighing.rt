//! Sequences weighed by how often their blocks are entered.
ghost use Rattle.std.specs.Prelude.{◌≡◌, ◌≤◌, ◌<◌, ◌^◌, All, IfOk, length};
ghost use Rattle.lay_model.specs.Sequences.{IsSequence};
ghost use Rattle.lay_profile.specs.Weighing.{weighed, weighed_blocks, accesses_in};

use lay_model::{Blocks, Sequence};
use std::alloc::Global;
use word_base::NoMemory;

// The blocks with a count above 0, each weighed by its count.
fn weigh_blocks(alloc: Global, blocks: &Blocks, counts: &[u64]) -> Result<Blocks, NoMemory>
    requires one_each { length counts.now ≡ length blocks.now }
    requires few { All (λ count. count ≤ 100000000) counts.now }
    ensures { IfOk result (λ weighed. weighed ≡ weighed_blocks blocks.now counts.now) }
{
    let mut weighed = Blocks::new(alloc);
    for (index, count) in counts.iter().enumerate() {
        if *count > 0 {
            weighed.push(*count as u32, blocks.accesses(index))?;
        }
    }
    Ok(weighed)
}

/// The blocks of a sequence whose count isn't 0, in order, each weighed by its count. There is one count for each block,
/// each at most 100,000,000, and the blocks have fewer than 4,294,967,296 accesses together. The scalars and the step
/// stay. Only the want of memory is refused.
pub fn weigh(alloc: Global, seq: &Sequence, counts: &[u64]) -> Result<Sequence, NoMemory>
    requires one_each { length counts.now ≡ length seq.now.blocks }
    requires few { All (λ count. count ≤ 100000000) counts.now }
    requires short { accesses_in seq.now.blocks < 2 ^ 32 }
    ensures weighed { IfOk result (λ s. s ≡ weighed seq.now counts.now) }
    ensures sequence { IfOk result IsSequence }
{
    let blocks = weigh_blocks(alloc, seq.blocks(), counts)?;
    Ok(Sequence::new(seq.scalars(), seq.step(), blocks))
}
