//! Expansions of sources, and `pre` where calls fail, each in turn. The answers were decided by hand from docs/LANGUAGE.md and
//! docs/COMMANDS.md.
use crate::commands::{answers, stores_source};
use c_lexer::token_text;
use c_macro::expand;
use cc_memory::MemShelf;
use std::process::Abort;
use std::test::Fail;
use std::thread::Threads;

// Expands a source, and looks at the text of its tokens, and at the place and length of each.
fn expands<R: AllocGlobal + Abort>(
    rt: &R,
    source: &str,
    text: &str,
    places: &[(u32, u32)],
) -> Result<(), Fail> {
    let alloc = rt.alloc();
    assert!(rt; source.len() <= 1_000);
    let tokens = expand(alloc, source.as_bytes())?;
    let written = token_text(alloc, &tokens)?;
    assert_eq!(rt; written.as_slice(), text.as_bytes(), "at {source}");
    let mut found = Vec::new(alloc);
    for token in tokens.iter() {
        found.push((token.at, token.len))?;
    }
    assert_eq!(rt; found.as_slice(), places, "at {source}");
    Ok(())
}

// What replaces a token has its place and length.
#[test]
fn replaced_tokens(rt: HostRuntime) -> Result<(), Fail> {
    expands(
        &rt,
        "#define N 3\n#define TWICE (N + N)\nint a = TWICE;\n",
        "int a = ( 3 + 3 ) ;\n",
        &[
            (34, 3),
            (38, 1),
            (40, 1),
            (42, 5),
            (42, 5),
            (42, 5),
            (42, 5),
            (42, 5),
            (47, 1),
        ],
    )?;
    // A macro isn't replaced within itself.
    expands(
        &rt,
        "#define a b\n#define b a\nint a;\n",
        "int a ;\n",
        &[(24, 3), (28, 1), (29, 1)],
    )?;
    expands(
        &rt,
        "#define int unsigned\nint x;",
        "unsigned x ;\n",
        &[(21, 3), (25, 1), (26, 1)],
    )
}

// In lines that aren't kept only sections are looked at.
#[test]
fn passed_lines(rt: HostRuntime) -> Result<(), Fail> {
    expands(
        &rt,
        "#ifdef A\n@\n#if 1\n'\n#else\n#endif\n#else\nint x;\n#endif\n",
        "int x ;\n",
        &[(38, 3), (42, 1), (43, 1)],
    )
}

/// What the requests of these tests expand.
const PRE: &[&str] = &["pre", "i", "o"];

// Expands a source where calls fail, and looks at what it leaves.
fn expansion<R: Threads + Sync + AllocGlobal + Abort>(
    rt: &R,
    source: &[u8],
    fails_at: (&[u64], &[u64]),
    answer: (u8, &str),
    calls: (u64, u64),
    stored: &[(&str, &[u8])],
) -> Result<(), Fail> {
    answers(rt, PRE, (source, b"kept"), fails_at, answer, calls, stored)
}

// A source is refused with this line, and nothing is stored.
fn refuses<R: Threads + Sync + AllocGlobal + Abort>(
    rt: &R,
    source: &[u8],
    line: &str,
) -> Result<(), Fail> {
    expansion(rt, source, (&[], &[]), (1, line), (1, 0), &[])
}

#[test]
fn faults_of_lines(rt: HostRuntime) -> Result<(), Fail> {
    refuses(&rt, b"int a = @;", "source refused: bad byte at byte 8\n")?;
    refuses(
        &rt,
        b"int a;\n#include <a>\n",
        "source refused: bad directive at byte 7\n",
    )?;
    refuses(
        &rt,
        b"#define N 1\n#define N 2\n",
        "source refused: macro redefined at byte 20\n",
    )?;
    refuses(
        &rt,
        b"#ifdef X\n",
        "source refused: unbalanced section at byte 0\n",
    )
}

#[test]
fn too_many_tokens(rt: HostRuntime) -> Result<(), Fail> {
    let source = b"x ".repeat(rt.alloc(), 200_001)?;
    refuses(&rt, &source, "source refused: too many tokens 200001\n")
}

// Each of 100,000 names is replaced by nine others, and each of these by nothing.
#[test]
fn too_many_replacements(rt: HostRuntime) -> Result<(), Fail> {
    let alloc = rt.alloc();
    let mut source = b"#define E\n#define F E E E E E E E E E\n".to_vec(alloc)?;
    let names = b"F ".repeat(alloc, 100_000)?;
    source.extend_from_slice(&names)?;
    expansion(&rt, &source, (&[], &[]), (0, ""), (2, 0), &[("o", b"")])?;
    source.extend_from_slice(b"E")?;
    refuses(
        &rt,
        &source,
        "source refused: too many replacements 1000001\n",
    )
}

#[test]
fn too_many_macros(rt: HostRuntime) -> Result<(), Fail> {
    let alloc = rt.alloc();
    let mut source = String::new(alloc);
    for i in 0..1_001 {
        let line = format!(in alloc; "#define M{i}\n")?;
        source.push_str(&line)?;
    }
    refuses(
        &rt,
        source.as_bytes(),
        "source refused: too many macros 1001\n",
    )
}

const SOURCE: &[u8] =
    b"#define N 3\n#define TWICE (N + N)\nint main(void){\n#ifdef N\n__out(0, TWICE);\n#else\n__out(0, 9);\n#endif\nreturn N; }\n";

const TEXT: &[u8] = b"int main ( void ) {\n__out ( 0x0 , ( 3 + 3 ) ) ;\nreturn 3 ;\n}\n";

#[test]
fn failing_expansions(rt: HostRuntime) -> Result<(), Fail> {
    expansion(
        &rt,
        SOURCE,
        (&[0], &[]),
        (3, "read fault: i\n"),
        (1, 0),
        &[],
    )?;
    expansion(&rt, SOURCE, (&[1], &[]), (4, ""), (2, 1), &[])?;
    // Neither is the line of a refusal put.
    expansion(&rt, b"#endif", (&[], &[0]), (1, ""), (1, 0), &[])?;
    // Nothing is put, so no put can fail, and no further call is made.
    expansion(&rt, SOURCE, (&[2], &[0]), (0, ""), (2, 0), &[("o", TEXT)])
}

// What is stored is a source, also where it takes the place of its own.
#[test]
fn expanded_source_runs(rt: HostRuntime) -> Result<(), Fail> {
    let alloc = rt.alloc();
    let mut shelf = MemShelf::new(alloc, Vec::new(alloc));
    shelf.insert(alloc, "a", SOURCE)?;
    stores_source(
        &rt,
        &mut shelf,
        &["pre", "a", "a"],
        ("a", TEXT),
        "0 0006\nreturned 0003\n",
    )
}
