//! A shelf in memory.
ghost use Rattle.std.specs.Prelude.{◌≡◌, ◌≢◌, ◌≤◌, [], ◌∷◌, ◌++◌, List, ℕ, Some, None, true, MatchOption, MatchResult, OnOk, OnErr, IfOk, IfErr, IsErrOf, IsTrue, ◌↔◌, ◌⊎◌, Contains, vec_len};
ghost use Rattle.cc_shelf.specs.Told.{FetchTold, StoreTold};
ghost use Rattle.cc_shelf.specs.ShelfAnswers.{FetchRefused, StoreRefused, AfterFetch, AfterStore};
ghost use Rattle.cc_shelf.specs.Stock.{Call};
ghost use Rattle.cc_shelf.specs.Reliable.{StaysReliable};
ghost use Rattle.cc_shelf.specs.Counts.{raised};
ghost use Rattle.cc_shelf.specs.Files.{Unchanged};
ghost use Rattle.cc_memory.specs.Calls.{calls_of};
ghost use Rattle.cc_memory.specs.Held.{held, NamesDiffer, FirstAt};

use cc_shelf::{Shelf, ShelfFault};
use std::alloc::Global;
use word_base::{NoMemory, Text};

/// A file of a shelf in memory.
#[derive(Drop)]
pub struct MemFile {
    pub name: Text,
    pub bytes: Vec<u8>,
}

// A fetch or a store: the name that it asked for, and whether it failed.
#[derive(Drop)]
struct MemCall {
    name: Text,
    failed: bool,
}

/// A shelf that tells its files, whose names differ, its fetches and its stores. `fail_at` has the numbers,
/// from 0, of the calls that are to fail, fetches and stores counted together; a failed one changes
/// no file.
#[derive(Drop)]
pub struct MemShelf {
    pub files: Vec<MemFile>,
    pub calls: u64,
    pub fetch_faults: u64,
    pub store_faults: u64,
    pub read: u64,
    pub fail_at: Vec<u64>,
    fetched: Vec<MemCall>,
    stored: Vec<MemCall>,
    // The stores that found no memory.
    store_wants: u64,
    ghost names_differ: { NamesDiffer files.items },
}

// Where the file of that name stands.
fn place_of(files: &[MemFile], name: &str) -> Option<usize>
    ensures { MatchOption result (held files.now name.now ≡ None) (λ place. FirstAt files.now name.now place) }
{
    for (i, file) in files.iter().enumerate() {
        if file.name.as_str() == name {
            return Some(i);
        }
    }
    None
}

// Puts a call behind those before it. For want of memory they stay as they were.
fn keep_call(
    calls: &mut Vec<MemCall>,
    alloc: Global,
    name: &str,
    failed: bool,
) -> Result<(), NoMemory>
    ensures { MatchResult result
        (λ _. calls_of calls.new.items ≡ calls_of calls.old.items ++ record { name = name.now; failed = failed } ∷ [])
        (λ _. calls.new.items ≡ calls.old.items) }
{
    let name = Text::copy_of(alloc, name)?;
    calls.push(MemCall { name, failed })?;
    Ok(())
}

// Takes the last call away.
fn drop_last(calls: &mut Vec<MemCall>)
    ensures { (before : List Call) (last : Call) → calls_of calls.old.items ≡ before ++ last ∷ [] → calls_of calls.new.items ≡ before }
{
    let _ = calls.pop();
}

impl MemShelf {
    ghost use Rattle.cc_memory.specs.MemStock.{counts_of, stock_of};

    /// A shelf without files, before its first call.
    pub fn new(alloc: Global, fail_at: Vec<u64>) -> Self
        ensures empty { result.files.items ≡ [] }
        ensures fetched { result.fetched.items ≡ [] }
        ensures stored { result.stored.items ≡ [] }
        ensures calls { result.calls ≡ 0 }
        ensures counts { counts_of result ≡ record { fetch_faults = 0; store_faults = 0; store_wants = 0; bytes_read = 0 } }
        ensures fail_at { result.fail_at ≡ fail_at }
        ensures reliable { fail_at.items ≡ [] → IsTrue (stock_of result).reliable }
    {
        MemShelf {
            files: Vec::new(alloc),
            calls: 0,
            fetch_faults: 0,
            store_faults: 0,
            read: 0,
            fail_at,
            fetched: Vec::new(alloc),
            stored: Vec::new(alloc),
            store_wants: 0,
        }
    }

    /// Makes the name hold the bytes. It is no call, so it never fails but for want of memory, and
    /// then it leaves all files as they were.
    pub fn insert(&mut self, alloc: Global, name: &str, bytes: &[u8]) -> Result<(), NoMemory>
        ensures told { OnOk result (held self.new.files.items name.now ≡ Some bytes.now) }
        ensures others { (n : List ℕ) → n ≢ name.now → held self.new.files.items n ≡ held self.old.files.items n }
        ensures memory { OnErr result (Unchanged (held self.old.files.items) (held self.new.files.items)) }
        ensures fetched { self.new.fetched ≡ self.old.fetched }
        ensures stored { self.new.stored ≡ self.old.stored }
        ensures calls { self.new.calls ≡ self.old.calls }
        ensures counts { counts_of self.new ≡ counts_of self.old }
        ensures fail_at { self.new.fail_at ≡ self.old.fail_at }
    {
        let copy = bytes.to_vec(alloc)?;
        if let Some(place) = place_of(&self.files, name) {
            self.files[place].bytes = copy;
            return Ok(());
        }
        let name = Text::copy_of(alloc, name)?;
        self.files.push(MemFile { name, bytes: copy })?;
        Ok(())
    }

    // Counts a call. The answer is whether it is to fail.
    fn count_call(&mut self) -> bool
        ensures fails { IsTrue result ↔ Contains self.old.fail_at.items self.old.calls }
        ensures reliable { StaysReliable (stock_of self.old) (stock_of self.new) }
        ensures unreliable { IsTrue result → ¬ IsTrue (stock_of self.old).reliable }
        ensures calls { self.new.calls ≡ raised self.old.calls 1 }
        ensures files { self.new.files ≡ self.old.files }
        ensures fetched { self.new.fetched ≡ self.old.fetched }
        ensures stored { self.new.stored ≡ self.old.stored }
        ensures counts { counts_of self.new ≡ counts_of self.old }
        ensures fail_at { self.new.fail_at ≡ self.old.fail_at }
    {
        let fails = self.fail_at.contains(&self.calls);
        self.calls = self.calls.saturating_add(1);
        fails
    }
}

impl Shelf for MemShelf {
    ghost use Rattle.cc_memory.specs.MemStock.{counts_of, stock_of};
    ghost use Rattle.std.specs.Prelude.{true};

    ghost tells = { true };

    ghost stock = { stock_of };

    fn fetch(&mut self, alloc: Global, name: &str, max: u64) -> Result<Vec<u8>, ShelfFault>
        ensures unchanged { Unchanged (held self.old.files.items) (held self.new.files.items) }
        ensures length { IfOk result (λ bytes. vec_len bytes ≤ max) }
        ensures told { IfOk result (λ bytes. held self.old.files.items name.now ≡ Some bytes.items) }
        ensures refused { IfErr result (FetchRefused true name.now max (stock_of self.old) (stock_of self.new)) }
        ensures counts { AfterFetch (counts_of self.old) (counts_of self.new) }
        ensures success { OnOk result (self.new.fetch_faults ≡ self.old.fetch_faults) }
        ensures asked { FetchTold true name.now (stock_of self.old) (stock_of self.new) result }
        ensures stored { self.new.stored.items ≡ self.old.stored.items }
        ensures reliable { StaysReliable (stock_of self.old) (stock_of self.new) }
        ensures unreliable { IsErrOf result ShelfFault.Failed → ¬ IsTrue (stock_of self.old).reliable }

        // Calls are counted. One fails exactly where its number is in `fail_at`, and else it counts no fault.
        ensures calls { self.new.calls ≡ raised self.old.calls 1 }
        ensures fails { IsErrOf result ShelfFault.Failed → Contains self.old.fail_at.items self.old.calls }
        ensures to_fail { Contains self.old.fail_at.items self.old.calls
            → IsErrOf result ShelfFault.Failed ⊎ IsErrOf result ShelfFault.NoMemory }
        ensures fault { IsErrOf result ShelfFault.Failed → self.new.fetch_faults ≡ raised self.old.fetch_faults 1 }
        ensures no_fault { ¬ Contains self.old.fail_at.items self.old.calls → self.new.fetch_faults ≡ self.old.fetch_faults }
        ensures read { IfOk result (λ bytes. self.new.read ≡ raised self.old.read (vec_len bytes)) }
        ensures unread { OnErr result (self.new.read ≡ self.old.read) }
        ensures fail_at { self.new.fail_at ≡ self.old.fail_at }
    {
        let is_to_fail = self.count_call();
        keep_call(&mut self.fetched, alloc, name, is_to_fail)?;
        if is_to_fail {
            self.fetch_faults = self.fetch_faults.saturating_add(1);
            return Err(ShelfFault::Failed);
        }
        let Some(place) = place_of(&self.files, name) else {
            return Err(ShelfFault::Absent);
        };
        let bytes = &self.files[place].bytes;
        let len = bytes.len() as u64;
        if len > max {
            return Err(ShelfFault::TooLong { at_least: len });
        }
        let copy = bytes.to_vec(alloc)?;
        self.read = self.read.saturating_add(len);
        Ok(copy)
    }

    fn store(&mut self, alloc: Global, name: &str, bytes: &[u8]) -> Result<(), ShelfFault>
        ensures told { OnOk result (held self.new.files.items name.now ≡ Some bytes.now) }
        ensures others { (n : List ℕ) → n ≢ name.now → held self.new.files.items n ≡ held self.old.files.items n }
        ensures memory { IsErrOf result ShelfFault.NoMemory → Unchanged (held self.old.files.items) (held self.new.files.items) }
        ensures refused { IfErr result (StoreRefused (counts_of self.old) (counts_of self.new)) }
        ensures counts { AfterStore (counts_of self.old) (counts_of self.new) }
        ensures success { OnOk result (self.new.store_faults ≡ self.old.store_faults) }
        ensures found { OnOk result (self.new.store_wants ≡ self.old.store_wants) }
        ensures asked { self.new.fetched.items ≡ self.old.fetched.items }
        ensures stored { StoreTold true name.now (stock_of self.old) (stock_of self.new) result }
        ensures reliable { StaysReliable (stock_of self.old) (stock_of self.new) }
        ensures unreliable { IsErrOf result ShelfFault.Failed → ¬ IsTrue (stock_of self.old).reliable }

        // As above, and a call that fails changes no file.
        ensures calls { self.new.calls ≡ raised self.old.calls 1 }
        ensures fails { IsErrOf result ShelfFault.Failed → Contains self.old.fail_at.items self.old.calls }
        ensures to_fail { Contains self.old.fail_at.items self.old.calls
            → IsErrOf result ShelfFault.Failed ⊎ IsErrOf result ShelfFault.NoMemory }
        ensures failed { IsErrOf result ShelfFault.Failed → Unchanged (held self.old.files.items) (held self.new.files.items) }
        ensures fault { IsErrOf result ShelfFault.Failed → self.new.store_faults ≡ raised self.old.store_faults 1 }
        ensures no_fault { ¬ Contains self.old.fail_at.items self.old.calls → self.new.store_faults ≡ self.old.store_faults }
        ensures fail_at { self.new.fail_at ≡ self.old.fail_at }
    {
        let is_to_fail = self.count_call();
        if keep_call(&mut self.stored, alloc, name, is_to_fail).is_err() {
            self.store_wants = self.store_wants.saturating_add(1);
            return Err(ShelfFault::NoMemory);
        }
        if is_to_fail {
            self.store_faults = self.store_faults.saturating_add(1);
            return Err(ShelfFault::Failed);
        }
        if self.insert(alloc, name, bytes).is_err() {
            drop_last(&mut self.stored);
            self.store_wants = self.store_wants.saturating_add(1);
            return Err(ShelfFault::NoMemory);
        }
        Ok(())
    }
}
