//! `join` where calls fail, each in turn, of sixteen sources, and over one of its own. The answers were decided by hand
//! from docs/LANGUAGE.md and docs/COMMANDS.md.
use crate::commands::{answers, stores_source};
use cc_memory::MemShelf;
use std::test::Fail;

const JOIN: &[&str] = &["join", "o", "i", "p"];

const COUNTER: &[u8] = b"static int n; int next(void){n = n + 1; return n;}";

const MAIN: &[u8] =
    b"int next(void); static int n; int main(void){n = 5; __out(0, next()); __out(0, n); return next();}";

const TEXT: &[u8] =
    b"static int n__1 ;\nint next ( void ) {\nn__1 = n__1 + 1 ;\nreturn n__1 ;\n}\nint next ( void ) ;\nstatic int n__2 ;\nint main ( void ) {\nn__2 = 5 ;\n__out ( 0x0 , next ( ) ) ;\n__out ( 0x0 , n__2 ) ;\nreturn next ( ) ;\n}\n";

#[test]
fn failing_joins(rt: HostRuntime) -> Result<(), Fail> {
    let files = (COUNTER, MAIN);
    answers(
        &rt,
        JOIN,
        files,
        (&[0], &[]),
        (3, "read fault: i\n"),
        (1, 0),
        &[],
    )?;
    answers(
        &rt,
        JOIN,
        files,
        (&[1], &[]),
        (3, "read fault: p\n"),
        (2, 0),
        &[],
    )?;
    answers(&rt, JOIN, files, (&[2], &[]), (4, ""), (3, 1), &[])?;
    // Neither is the line of a refusal put.
    answers(&rt, JOIN, (b"@", MAIN), (&[], &[0]), (1, ""), (2, 0), &[])?;
    // Nothing is put, so no put can fail, and no further call is made.
    let stored = &[("o", TEXT)];
    answers(&rt, JOIN, files, (&[3], &[0]), (0, ""), (3, 0), stored)
}

const USER: &[u8] = b"extern int k; int main(void){return k;}";

// Where the other source defines the object the two are joined, and one that doesn't declare it is refused by itself.
#[test]
fn objects_of_other_sources(rt: HostRuntime) -> Result<(), Fail> {
    let files = (USER, b"int k = 9;".as_slice());
    answers(
        &rt,
        &["join", "o", "i"],
        files,
        (&[], &[]),
        (1, "source refused: undefined k\n"),
        (1, 0),
        &[],
    )?;
    let text = b"int k ;\nint main ( void ) {\nreturn k ;\n}\nint k = 9 ;\n";
    answers(
        &rt,
        JOIN,
        files,
        (&[], &[]),
        (0, ""),
        (3, 0),
        &[("o", text)],
    )?;
    answers(
        &rt,
        JOIN,
        (b"int g;", b"int main(void){return g;}"),
        (&[], &[]),
        (1, "source refused: file 2: undeclared at byte 22\n"),
        (2, 0),
        &[],
    )
}

const SIXTEEN: &[&str] = &[
    "join", "o", "i", "p", "i", "p", "i", "p", "i", "p", "i", "p", "i", "p", "i", "p", "i", "p",
];

const SIXTEEN_TEXT: &[u8] =
    b"static int a__1 ;\nint b ;\nstatic int a__3 ;\nint b ;\nstatic int a__5 ;\nint b ;\nstatic int a__7 ;\nint b ;\nstatic int a__9 ;\nint b ;\nstatic int a__11 ;\nint b ;\nstatic int a__13 ;\nint b ;\nstatic int a__15 ;\nint b ;\n";

// A name may stand for several sources, and each time its file is fetched.
#[test]
fn sixteen_sources(rt: HostRuntime) -> Result<(), Fail> {
    let files = (b"static int a;".as_slice(), b"int b;".as_slice());
    answers(
        &rt,
        SIXTEEN,
        files,
        (&[15], &[]),
        (3, "read fault: p\n"),
        (16, 0),
        &[],
    )?;
    let stored = &[("o", SIXTEEN_TEXT)];
    answers(&rt, SIXTEEN, files, (&[], &[]), (0, ""), (17, 0), stored)
}

// What is stored is a source, and may take the place of one of its own, which is joined as it was at first.
#[test]
fn joined_source_runs(rt: HostRuntime) -> Result<(), Fail> {
    let alloc = rt.alloc();
    let mut shelf = MemShelf::new(alloc, Vec::new(alloc));
    shelf.insert(alloc, "a", COUNTER)?;
    shelf.insert(alloc, "b", MAIN)?;
    stores_source(
        &rt,
        &mut shelf,
        &["join", "b", "a", "b"],
        ("b", TEXT),
        "0 0001\n0 0005\nreturned 0002\n",
    )
}
