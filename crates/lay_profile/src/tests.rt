//! Runs, walks and sequences by hand, over words of docs/MACHINE.md.
use crate::{entries, places, weigh};
use c25_isa::{FunctionRange, Image};
use lay_model::{Blocks, Sequence};
use std::process::Abort;
use std::test::Fail;
use word_base::{Ports, Text};

// LACK 3; at 1 SUBK 1 and BNZ to it; IDLE.
const THREE_TURNS: &[u16] = &[0xca03, 0xcd01, 0xf580, 1, 0xce1f];

// Counts the steps of some words at their first five addresses.
fn enters<R: AllocGlobal + Abort>(
    rt: &R,
    words: &[u16],
    steps: u64,
    counts: &[u64],
) -> Result<(), Fail> {
    let alloc = rt.alloc();
    assert!(rt; words.len() <= 65_536);
    assert!(rt; steps <= 100);
    let image = Image::new(words.to_vec(alloc)?, Vec::new(alloc));
    let ports = Ports::new(Vec::new(alloc));
    let found = entries(alloc, &image, &[0, 1, 2, 3, 4], &ports, steps)?;
    assert_eq!(rt; found.as_slice(), counts);
    Ok(())
}

#[test]
fn steps_that_are_counted(rt: HostRuntime) -> Result<(), Fail> {
    // The step that ends counts once, and only where it is among the steps.
    enters(&rt, THREE_TURNS, 100, &[1, 3, 3, 0, 1])?;
    enters(&rt, THREE_TURNS, 7, &[1, 3, 3, 0, 0])?;
    enters(&rt, THREE_TURNS, 8, &[1, 3, 3, 0, 1])?;
    // RET of an empty stack traps. RPTK 2 and SFL is four steps.
    enters(&rt, &[0xce26], 100, &[1, 0, 0, 0, 0])?;
    enters(&rt, &[0xcb02, 0xce18, 0xce1f], 100, &[1, 3, 1, 0, 0])
}

// LARK AR2,10h; MAR *,AR2; LAC *+; LAC *; B to LARK AR3,11h; there MAR *,AR3; LAC *; RET.
const TWO_STRETCHES: &[u16] = &[
    0xc210, 0x558a, 0x20a0, 0x2080, 0xff80, 6, 0xc311, 0x558b, 0x2080, 0xce26,
];

#[test]
fn places_of_two_stretches(rt: HostRuntime) -> Result<(), Fail> {
    let alloc = rt.alloc();
    let mut functions = Vec::new(alloc);
    functions.push(FunctionRange {
        name: Text::copy_of(alloc, "f")?,
        first: 0,
        last: 9,
    })?;
    let words = TWO_STRETCHES.to_vec(alloc)?;
    let image = Image::new(words, functions);
    let found = places(alloc, &image, 0)?;
    assert_eq!(&rt; found.as_slice(), [2, 8].as_slice());
    Ok(())
}

#[test]
fn a_block_of_count_0_is_left_out(rt: HostRuntime) -> Result<(), Fail> {
    let alloc = rt.alloc();
    let mut blocks = Blocks::new(alloc);
    blocks.push(1, &[0, 1])?;
    blocks.push(1, &[1, 2])?;
    blocks.push(1, &[0, 2])?;
    let seq = Sequence::new(3, 1, blocks);
    let weighed = weigh(alloc, &seq, &[1, 0, 5])?;
    let blocks = weighed.blocks();
    assert_eq!(&rt;
        (weighed.scalars(), weighed.step(), blocks.len()),
        (3, 1, 2)
    );
    assert_eq!(&rt; (blocks.weight(0), blocks.weight(1)), (1, 5));
    assert_eq!(&rt; blocks.accesses(1), [0, 2].as_slice());
    Ok(())
}
