//! Builds and assemblies whose calls fail, each in turn. The answers were decided by hand from docs/COMMANDS.md.
use crate::commands::answers;
use std::process::Abort;
use std::test::Fail;
use std::thread::Threads;

const SOURCE: &[u8] = b"int main(void){__out(1,5); return 7;}";

const BUILD: &[&str] = &["build", "i", "a.img"];

// Runs a build that stores nothing, of a source with `kept` beside it, and looks at what it leaves.
fn stores_nothing<R: Threads + Sync + AllocGlobal + Abort>(
    rt: &R,
    words: &[&str],
    source: &[u8],
    fails_at: (&[u64], &[u64]),
    answer: (u8, &str),
    calls: (u64, u64),
) -> Result<(), Fail> {
    answers(rt, words, (source, b"kept"), fails_at, answer, calls, &[])
}

#[test]
fn failing_fetches(rt: HostRuntime) -> Result<(), Fail> {
    stores_nothing(
        &rt,
        BUILD,
        SOURCE,
        (&[0], &[]),
        (3, "read fault: i\n"),
        (1, 0),
    )?;
    stores_nothing(&rt, BUILD, SOURCE, (&[0], &[0]), (3, ""), (1, 0))?;
    let absent = &["build", "c", "a.img"];
    stores_nothing(
        &rt,
        absent,
        SOURCE,
        (&[], &[]),
        (3, "read fault: c\n"),
        (1, 0),
    )
}

// A line that can't be put changes no status.
#[test]
fn failing_puts(rt: HostRuntime) -> Result<(), Fail> {
    stores_nothing(&rt, BUILD, b"", (&[], &[0]), (1, ""), (1, 0))?;
    stores_nothing(&rt, &["build"], SOURCE, (&[], &[0]), (2, ""), (0, 0))?;
    let options = &["run", "i", "p", "--steps", "0"];
    stores_nothing(
        &rt,
        options,
        SOURCE,
        (&[], &[]),
        (2, "words refused\n"),
        (0, 0),
    )
}

const IMAGE: &[u8] =
    b"C25 IMAGE 1\nwords 12\nce02 ce08 ce07 fe80 0006 ce1f ca05 c806\n6000 e100 ca07 ce26\nfunc main 0006 000b\nend\n";

const CERTIFICATE: &[u8] =
    b"C25 CERTIFICATE 2\nframe main\nregisters 1\nstep 1\nscalars 0\ncost 0\nclaim optimal\nmarks 1\nc\nendframe\nend\n";

const REPORT: &str = "main: 0 scalars, 1 registers, 0 accesses, 0 address instructions, optimal\n";

// Runs the build whose calls fail so, and looks at what it leaves.
fn builds<R: Threads + Sync + AllocGlobal + Abort>(
    rt: &R,
    fails_at: (&[u64], &[u64]),
    answer: (u8, &str),
    calls: (u64, u64),
    stored: &[(&str, &[u8])],
) -> Result<(), Fail> {
    answers(
        rt,
        BUILD,
        (SOURCE, b"kept"),
        fails_at,
        answer,
        calls,
        stored,
    )
}

// Where the second store fails, the image is whole.
#[test]
fn failing_stores(rt: HostRuntime) -> Result<(), Fail> {
    builds(&rt, (&[1], &[]), (4, ""), (2, 1), &[])?;
    builds(&rt, (&[2], &[]), (4, ""), (3, 1), &[("a.img", IMAGE)])
}

// Where the report can't be put both files stand, and later calls aren't made.
#[test]
fn failing_reports(rt: HostRuntime) -> Result<(), Fail> {
    let both = &[("a.img", IMAGE), ("a.img.crt", CERTIFICATE)];
    builds(&rt, (&[3], &[0]), (4, ""), (3, 0), both)?;
    builds(&rt, (&[3], &[1]), (0, REPORT), (3, 0), both)
}

const ASSEMBLE: &[&str] = &["asm", "i", "a.img"];

const TEXT: &[u8] = b"IDLE\n";

#[test]
fn failing_assemblies(rt: HostRuntime) -> Result<(), Fail> {
    stores_nothing(
        &rt,
        ASSEMBLE,
        TEXT,
        (&[0], &[]),
        (3, "read fault: i\n"),
        (1, 0),
    )?;
    stores_nothing(&rt, ASSEMBLE, TEXT, (&[1], &[]), (4, ""), (2, 1))?;
    stores_nothing(&rt, ASSEMBLE, b"IDEL\n", (&[], &[0]), (9, ""), (1, 0))
}

// Nothing is put, so no put can fail.
#[test]
fn silent_assemblies(rt: HostRuntime) -> Result<(), Fail> {
    answers(
        &rt,
        ASSEMBLE,
        (TEXT, b"kept"),
        (&[2], &[0]),
        (0, ""),
        (2, 0),
        &[("a.img", b"C25 IMAGE 1\nwords 1\nce1f\nend\n")],
    )
}
