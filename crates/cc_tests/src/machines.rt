//! Machines that are run again, that are run for no step, and that are looked at between steps.
use c25_isa::{Image, Start, Stop, TrapKind};
use c25_sim::{Machine, Registers};
use std::process::Abort;
use std::test::Fail;
use word_base::{Ending, PortWord, Ports};

const SEVEN: &[u16] = &[0xc806, 0xca07, 0x6005, 0xe105, 0xce1f];

// Runs words on the words of port 0 for so many steps, and then for five more. The first run puts as many words, to port 1, and
// stands there; where that is an end or a trap, the second one stands there too.
fn stands<R: AllocGlobal + Abort>(
    rt: &R,
    words: &[u16],
    steps: u64,
    outs: &[u16],
    stop: Stop,
) -> Result<(), Fail> {
    let alloc = rt.alloc();
    assert!(rt; words.len() <= 65_536);
    let image = Image::new(words.to_vec(alloc)?, Vec::new(alloc));
    let start = Start::zero(alloc, &image)?;
    let mut machine = Machine::new(alloc, start, Ports::new(Vec::new(alloc)))?;
    let outcome = machine.run(alloc, steps)?;
    assert_eq!(rt; outcome.stop, stop);
    puts(rt, outcome.outs.words(), outs);
    if stop != Stop::Running {
        assert_eq!(rt; machine.run(alloc, 5)?.stop, stop);
    }
    Ok(())
}

// Looks at words that were put to port 1.
fn puts<R: AllocGlobal + Abort>(rt: &R, put: &[PortWord], outs: &[u16]) {
    assert_eq!(rt; put.len(), outs.len());
    for (put, word) in put.iter().zip(outs) {
        assert_eq!(rt; (put.port(), put.word()), (1, *word));
    }
}

#[test]
fn no_steps(rt: HostRuntime) -> Result<(), Fail> {
    stands(&rt, SEVEN, 0, &[], Stop::Running)
}

#[test]
fn runs_after_an_end(rt: HostRuntime) -> Result<(), Fail> {
    stands(&rt, SEVEN, 100, &[7], Stop::Ended(Ending::Returned(7)))?;
    let trap = |kind: TrapKind| Stop::Trap { kind, at: 0 };
    stands(&rt, &[0xce26], 9, &[], trap(TrapKind::StackEmpty))?;
    stands(&rt, &[0xce00], 9, &[], trap(TrapKind::BadWord))
}

// The machine of these words behind so many steps.
fn behind<R: AllocGlobal + Abort>(rt: &R, words: &[u16], steps: u64) -> Result<Machine, Fail> {
    let alloc = rt.alloc();
    assert!(rt; words.len() <= 65_536);
    let image = Image::new(words.to_vec(alloc)?, Vec::new(alloc));
    let start = Start::zero(alloc, &image)?;
    let mut machine = Machine::new(alloc, start, Ports::new(Vec::new(alloc)))?;
    machine.run(alloc, steps)?;
    Ok(machine)
}

#[test]
fn registers_and_words(rt: HostRuntime) -> Result<(), Fail> {
    let machine = behind(&rt, SEVEN, 3)?;
    let Registers { acc, ar, dp, .. } = machine.registers();
    assert_eq!(&rt; (machine.pc(), acc, dp), (3, 7, 6));
    assert_eq!(&rt; ar, [0; 8]);
    assert_eq!(&rt; machine.ram_word(0x305), 7);
    Ok(())
}

// The first of two calls within one another comes first.
#[test]
fn stacked_words(rt: HostRuntime) -> Result<(), Fail> {
    let machine = behind(&rt, &[0xfe80, 2, 0xfe80, 4, 0xce1f], 2)?;
    assert_eq!(&rt; machine.depth(), 2);
    assert_eq!(&rt; (machine.stack_word(0), machine.stack_word(1)), (2, 4));
    Ok(())
}
