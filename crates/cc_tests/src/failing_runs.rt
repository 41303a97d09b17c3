//! Runs, evaluations, executions, layouts, listings and generated programs whose calls fail, each in turn. The answers were decided by hand from docs/COMMANDS.md.
use crate::commands;
use std::process::Abort;
use std::test::Fail;
use std::thread::Threads;

/// Puts 7 to port 1, and returns it.
const SEVEN: &[u8] = b"C25 IMAGE 1\nwords 5\nc806 ca07 6005 e105 ce1f\nend\n";

const SOURCE: &[u8] = b"int main(void){return 7;}";

const RUN: &[&str] = &["run", "i", "p"];

const MEANS: &[&str] = &["means", "i", "p"];

const EXEC: &[&str] = &["exec", "i", "p"];

// Runs a command on no input, and looks at what it leaves. It stores nothing.
fn answers<R: Threads + Sync + AllocGlobal + Abort>(
    rt: &R,
    words: &[&str],
    file: &[u8],
    fails_at: (&[u64], &[u64]),
    answer: (u8, &str),
    calls: u64,
) -> Result<(), Fail> {
    commands::answers(rt, words, (file, b""), fails_at, answer, (calls, 0), &[])
}

#[test]
fn failing_runs(rt: HostRuntime) -> Result<(), Fail> {
    answers(&rt, RUN, SEVEN, (&[0], &[]), (3, "read fault: i\n"), 1)?;
    answers(&rt, RUN, SEVEN, (&[1], &[]), (3, "read fault: p\n"), 2)?;
    answers(&rt, RUN, SEVEN, (&[0, 1], &[0]), (3, ""), 1)?;
    // The answer can't be put, and nothing more is.
    answers(&rt, RUN, SEVEN, (&[2], &[0]), (4, ""), 2)?;
    // No further call is made.
    answers(
        &rt,
        RUN,
        SEVEN,
        (&[2], &[1]),
        (0, "1 0007\nreturned 0007\n"),
        2,
    )
}

#[test]
fn failing_evaluations(rt: HostRuntime) -> Result<(), Fail> {
    answers(&rt, MEANS, SOURCE, (&[0], &[]), (3, "read fault: i\n"), 1)?;
    answers(&rt, MEANS, SOURCE, (&[1], &[]), (3, "read fault: p\n"), 2)?;
    answers(&rt, MEANS, b"", (&[], &[0]), (1, ""), 2)?;
    // The answer can't be put, and nothing more is.
    answers(&rt, MEANS, SOURCE, (&[], &[0]), (4, ""), 2)?;
    // No further call is made.
    answers(&rt, MEANS, SOURCE, (&[2], &[1]), (0, "returned 0007\n"), 2)
}

/// Puts 0, 1 and 2 to port 1, and returns 7.
const COUNTS: &[u8] = b"int main(void){int i; for(i=0;i<3;++i)__out(1,i); return 7;}";

#[test]
fn failing_executions(rt: HostRuntime) -> Result<(), Fail> {
    answers(&rt, EXEC, COUNTS, (&[0], &[]), (3, "read fault: i\n"), 1)?;
    answers(&rt, EXEC, COUNTS, (&[1], &[]), (3, "read fault: p\n"), 2)?;
    answers(&rt, EXEC, b"", (&[], &[0]), (1, ""), 2)?;
    // The answer can't be put, and nothing more is.
    answers(&rt, EXEC, COUNTS, (&[], &[0]), (4, ""), 2)?;
    // No further call is made.
    answers(
        &rt,
        EXEC,
        COUNTS,
        (&[2], &[1]),
        (0, "1 0000\n1 0001\n1 0002\nreturned 0007\n"),
        2,
    )
}

const LAYOUT: &[&str] = &["layout", "i"];

/// Between any two others comes scalar 0.
const SEQUENCE: &[u8] = b"scalars 4\nblock 1 0 1 0 2 0 3\nend\n";

#[test]
fn failing_layouts(rt: HostRuntime) -> Result<(), Fail> {
    answers(
        &rt,
        LAYOUT,
        SEQUENCE,
        (&[0], &[]),
        (3, "read fault: i\n"),
        1,
    )?;
    answers(&rt, LAYOUT, b"", (&[], &[0]), (9, ""), 1)?;
    // The answer can't be put, and nothing more is.
    answers(&rt, LAYOUT, SEQUENCE, (&[], &[0]), (4, ""), 1)?;
    // No further call is made.
    answers(
        &rt,
        LAYOUT,
        SEQUENCE,
        (&[1], &[1]),
        (0, "cost 2 optimal\nregister 0: 1 0 2 3\n"),
        1,
    )
}

const CHECK: &[&str] = &["check", "i", "p"];

// A check of an image of no function against a certificate that holds nothing.
#[test]
fn failing_checks(rt: HostRuntime) -> Result<(), Fail> {
    answers(&rt, CHECK, SEVEN, (&[0], &[]), (3, "read fault: i\n"), 1)?;
    answers(&rt, CHECK, SEVEN, (&[1], &[]), (3, "read fault: p\n"), 2)?;
    answers(&rt, CHECK, b"", (&[], &[0]), (9, ""), 2)?;
    answers(
        &rt,
        CHECK,
        SEVEN,
        (&[], &[]),
        (9, "file refused: p bad line 1\n"),
        2,
    )
}

const LIST: &[&str] = &["dis", "i"];

#[test]
fn failing_listings(rt: HostRuntime) -> Result<(), Fail> {
    answers(&rt, LIST, SEVEN, (&[0], &[]), (3, "read fault: i\n"), 1)?;
    answers(&rt, LIST, b"", (&[], &[0]), (9, ""), 1)?;
    // The answer can't be put, and nothing more is.
    answers(&rt, LIST, SEVEN, (&[], &[0]), (4, ""), 1)?;
    // No further call is made.
    answers(
        &rt,
        LIST,
        SEVEN,
        (&[1], &[1]),
        (
            0,
            "LDPK 0x006\nLACK 0x07\nSACL 0x05,0\nOUT 0x05,PA1\nIDLE\n",
        ),
        1,
    )
}

const GENERATE: &[&str] = &["gen", "1"];

// Its one function adds 3 to 1 four times. No file is fetched.
#[test]
fn failing_generated_programs(rt: HostRuntime) -> Result<(), Fail> {
    answers(&rt, GENERATE, b"", (&[0], &[0]), (4, ""), 0)?;
    answers(
        &rt,
        GENERATE,
        b"",
        (&[0], &[1]),
        (
            0,
            "gen 1: functions 2, outputs 1, last 000d, returned 000d\n",
        ),
        0,
    )
}

// The format of the ports comes before the faults of the source.
#[test]
fn ports_before_the_source(rt: HostRuntime) -> Result<(), Fail> {
    commands::answers(
        &rt,
        EXEC,
        (b"", b"x"),
        (&[], &[]),
        (9, "file refused: p bad line 1\n"),
        (2, 0),
        &[],
    )
}
