//! Commands over a shelf and a sink in memory.
use cc_driver::c25cc;
use cc_memory::{MemShelf, MemSink};
use std::alloc::Global;
use std::process::Abort;
use std::test::Fail;
use std::thread::Threads;

/// The words as a list.
pub(crate) fn list_of(alloc: Global, words: &[&str]) -> Result<Vec<String>, Fail> {
    let mut list = Vec::new(alloc);
    for word in words {
        list.push(String::from_str(alloc, word)?)?;
    }
    Ok(list)
}

/// The status of a command over a shelf and a sink in memory. What the contract of `c25cc` says isn't carried on from here: the tests
/// look at what it does, and are proved sooner without.
pub(crate) fn status_of<R: Threads + Sync>(
    rt: &R,
    alloc: Global,
    words: &[String],
    shelf: &mut MemShelf,
    out: &mut MemSink,
) -> u8 {
    c25cc(rt, alloc, words, shelf, out)
}

/// Runs a command over a shelf that holds two files, `i` and `p`, and looks at what it leaves. The calls of the shelf
/// and of the sink that fail are given by number, from 0.
///
/// An answer is the status and all that is put, and calls are how many fetches and stores are made and how many stores
/// failed. What is stored is what other names than `i` and `p` hold then; these two hold what they held.
pub(crate) fn answers<R: Threads + Sync + AllocGlobal + Abort>(
    rt: &R,
    words: &[&str],
    files: (&[u8], &[u8]),
    fails_at: (&[u64], &[u64]),
    answer: (u8, &str),
    calls: (u64, u64),
    stored: &[(&str, &[u8])],
) -> Result<(), Fail> {
    let alloc = rt.alloc();
    let mut shelf = MemShelf::new(alloc, fails_at.0.to_vec(alloc)?);
    shelf.insert(alloc, "i", files.0)?;
    shelf.insert(alloc, "p", files.1)?;
    let mut out = MemSink::new(alloc, fails_at.1.to_vec(alloc)?);
    let list = list_of(alloc, words)?;
    let status = status_of(rt, alloc, &list, &mut shelf, &mut out);
    assert_eq!(rt;
        (status, out.bytes.as_slice()),
        (answer.0, answer.1.as_bytes())
    );
    assert_eq!(rt; (shelf.calls, shelf.store_faults), calls);
    assert_eq!(rt; shelf.files.len(), stored.len() + 2);
    assert_eq!(rt; held(&shelf, "i"), Some(files.0));
    assert_eq!(rt; held(&shelf, "p"), Some(files.1));
    for (name, bytes) in stored {
        assert_eq!(rt; held(&shelf, name), Some(*bytes));
    }
    Ok(())
}

/// Runs a command that stores a source under a name and puts nothing, and looks at the source and at what its run on no
/// input puts.
pub(crate) fn stores_source<R: Threads + Sync + AllocGlobal + Abort>(
    rt: &R,
    shelf: &mut MemShelf,
    words: &[&str],
    stored: (&str, &[u8]),
    puts: &str,
) -> Result<(), Fail> {
    let alloc = rt.alloc();
    let (name, source) = stored;
    let mut out = MemSink::new(alloc, Vec::new(alloc));
    let list = list_of(alloc, words)?;
    assert_eq!(rt; status_of(rt, alloc, &list, shelf, &mut out), 0);
    assert_eq!(rt; held(shelf, name), Some(source));
    shelf.insert(alloc, "none", b"")?;
    let run = list_of(alloc, &["exec", name, "none"])?;
    assert_eq!(rt; status_of(rt, alloc, &run, shelf, &mut out), 0);
    assert_eq!(rt; out.bytes.as_slice(), puts.as_bytes());
    Ok(())
}

/// What the shelf holds under a name.
pub(crate) fn held<'a>(shelf: &'a MemShelf, name: &str) -> Option<&'a [u8]> {
    for file in shelf.files.iter() {
        if file.name.as_str() == name {
            return Some(file.bytes.as_slice());
        }
    }
    None
}
