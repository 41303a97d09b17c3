//! The real files and the real standard output, and what pieces of a search share.
use cc_shelf::{FileShelf, OutSink, Shelf, ShelfFault, Sink};
use std::fs;
use std::test::Fail;
use word_base::{Gate, NoMemory, OpenGate};

const NAME: &str = "file_shelf.tmp";

// Stored bytes are read again.
#[test]
fn stored_bytes(rt: HostRuntime) -> Result<(), Fail> {
    let alloc = rt.alloc();
    let mut shelf = FileShelf::new(&rt);
    let bytes = vec![in alloc; 7u8; 10_000]?;
    assert_eq!(&rt; shelf.store(alloc, NAME, &bytes), Ok(()));
    assert_eq!(&rt; shelf.store(alloc, NAME, b"short"), Ok(()));
    assert_eq!(&rt; shelf.fetch(alloc, NAME, 5)?.as_slice(), &b"short"[..]);
    assert_eq!(&rt;
        (shelf.fetch_faults, shelf.store_faults, shelf.read),
        (0, 0, 5)
    );
    fs::remove_file(&rt, NAME)?;
    Ok(())
}

const LONG_NAME: &str = "long_file.tmp";

// A file longer than its limit is refused, and what was read of it is counted.
#[test]
fn long_file(rt: HostRuntime) -> Result<(), Fail> {
    let alloc = rt.alloc();
    let mut shelf = FileShelf::new(&rt);
    let bytes = vec![in alloc; 7u8; 10_000]?;
    assert_eq!(&rt; shelf.store(alloc, LONG_NAME, &bytes), Ok(()));
    let too_long = shelf.fetch(alloc, LONG_NAME, 9_999).err();
    assert!(&rt; matches!(too_long, Some(ShelfFault::TooLong { at_least: 10_000 })));
    assert_eq!(&rt; shelf.read, 10_000);
    fs::remove_file(&rt, LONG_NAME)?;
    Ok(())
}

// Each refusal is counted.
#[test]
fn failing_files(rt: HostRuntime) -> Result<(), Fail> {
    let alloc = rt.alloc();
    let mut shelf = FileShelf::new(&rt);
    assert_eq!(&rt;
        shelf.fetch(alloc, "absent.tmp", 5).err(),
        Some(ShelfFault::Failed)
    );
    assert_eq!(&rt;
        shelf.store(alloc, "no_folder/x", b"short"),
        Err(ShelfFault::Failed)
    );
    assert_eq!(&rt; (shelf.fetch_faults, shelf.store_faults), (1, 1));
    Ok(())
}

// Standard output takes a line.
#[test]
fn standard_output(rt: HostRuntime) -> Result<(), Fail> {
    let mut out = OutSink::new(&rt);
    assert_eq!(&rt; out.put(rt.alloc(), b"one line\n"), Ok(()));
    assert_eq!(&rt; out.faults, 0);
    Ok(())
}

fn is_shared<T: Send + Sync>(_: &T) -> bool {
    true
}

// What the pieces of a search share, and what they give back when memory is wanting.
#[test]
fn shared_types(rt: HostRuntime) {
    assert!(&rt; is_shared(&OpenGate) && is_shared(&NoMemory));
    OpenGate.enter(0);
    OpenGate.leave(0);
}
