//! Builds for recorded runs whose calls fail, each in turn. The answers were decided by hand from docs/COMMANDS.md and
//! docs/FORMATS.md.
use crate::commands::{held, list_of, status_of};
use cc_memory::{MemShelf, MemSink};
use std::process::Abort;
use std::test::Fail;
use std::thread::Threads;

const SOURCE: &[u8] = b"int main(void){__out(1,5); return 7;}";

/// The image of the source. It accesses no scalar, so no layout changes it.
const IMAGE: &[u8] =
    b"C25 IMAGE 1\nwords 12\nce02 ce08 ce07 fe80 0006 ce1f ca05 c806\n6000 e100 ca07 ce26\nfunc main 0006 000b\nend\n";

/// The image of no source: it has no function.
const SEVEN: &[u8] = b"C25 IMAGE 1\nwords 5\nc806 ca07 6005 e105 ce1f\nend\n";

const CERTIFICATE: &[u8] =
    b"C25 CERTIFICATE 2\nframe main\nregisters 1\nstep 1\nscalars 0\ncost 0\nclaim optimal\nmarks 1\nc\nendframe\nend\n";

const REPORT: &str = "main: 0 scalars, 1 registers, 0 entries, 0 weighted, optimal\n";

// Builds a source for the run of an image on the ports of a file where these calls fail, and looks at the status, at what
// is put, at how many calls there are and how many stores failed, and at what is stored.
fn profiles<R: Threads + Sync + AllocGlobal + Abort>(
    rt: &R,
    files: (&[u8], &[u8], &[u8]),
    fails_at: (&[u64], &[u64]),
    answer: (u8, &str),
    calls: (u64, u64),
    stored: &[(&str, &[u8])],
) -> Result<(), Fail> {
    let alloc = rt.alloc();
    let (source, image, ports) = files;
    let mut shelf = MemShelf::new(alloc, fails_at.0.to_vec(alloc)?);
    shelf.insert(alloc, "i", source)?;
    shelf.insert(alloc, "m", image)?;
    shelf.insert(alloc, "p", ports)?;
    let mut out = MemSink::new(alloc, fails_at.1.to_vec(alloc)?);
    let list = list_of(alloc, &["pbuild", "i", "m", "p", "a.img"])?;
    let status = status_of(rt, alloc, &list, &mut shelf, &mut out);
    assert_eq!(rt;
        (status, out.bytes.as_slice()),
        (answer.0, answer.1.as_bytes())
    );
    assert_eq!(rt; (shelf.calls, shelf.store_faults), calls);
    assert_eq!(rt; shelf.files.len(), stored.len() + 3);
    for (name, bytes) in stored {
        assert_eq!(rt; held(&shelf, name), Some(*bytes));
    }
    Ok(())
}

const FILES: (&[u8], &[u8], &[u8]) = (SOURCE, IMAGE, b"");

#[test]
fn failing_fetches(rt: HostRuntime) -> Result<(), Fail> {
    profiles(&rt, FILES, (&[0], &[]), (3, "read fault: i\n"), (1, 0), &[])?;
    profiles(&rt, FILES, (&[1], &[]), (3, "read fault: m\n"), (2, 0), &[])?;
    profiles(&rt, FILES, (&[2], &[]), (3, "read fault: p\n"), (3, 0), &[])
}

// The image is looked at before the ports, and these before the source. A line that can't be put changes no status.
#[test]
fn refused_files(rt: HostRuntime) -> Result<(), Fail> {
    let image = "file refused: m bad line 1\n";
    profiles(&rt, (b"", b"", b"x"), (&[], &[]), (9, image), (3, 0), &[])?;
    profiles(&rt, (b"", b"", b"x"), (&[], &[0]), (9, ""), (3, 0), &[])?;
    let ports = "file refused: p bad line 1\n";
    profiles(&rt, (b"", SEVEN, b"x"), (&[], &[]), (9, ports), (3, 0), &[])
}

// The source is looked at before the shape of the image.
#[test]
fn refused_sources(rt: HostRuntime) -> Result<(), Fail> {
    let source = "source refused: bad byte at byte 0\n";
    profiles(
        &rt,
        (b"@", SEVEN, b""),
        (&[], &[]),
        (1, source),
        (3, 0),
        &[],
    )?;
    let other = "file refused: m other source\n";
    profiles(
        &rt,
        (SOURCE, SEVEN, b""),
        (&[], &[]),
        (9, other),
        (3, 0),
        &[],
    )?;
    profiles(&rt, (SOURCE, SEVEN, b""), (&[], &[0]), (9, ""), (3, 0), &[])
}

// Where the second store fails, the image is whole.
#[test]
fn failing_stores(rt: HostRuntime) -> Result<(), Fail> {
    profiles(&rt, FILES, (&[3], &[]), (4, ""), (4, 1), &[])?;
    profiles(
        &rt,
        FILES,
        (&[4], &[]),
        (4, ""),
        (5, 1),
        &[("a.img", IMAGE)],
    )
}

// Where the lines can't be put both files stand, and later calls aren't made.
#[test]
fn failing_lines(rt: HostRuntime) -> Result<(), Fail> {
    let both = &[("a.img", IMAGE), ("a.img.prf", CERTIFICATE)];
    profiles(&rt, FILES, (&[5], &[0]), (4, ""), (5, 0), both)?;
    profiles(&rt, FILES, (&[5], &[1]), (0, REPORT), (5, 0), both)
}
