//! The files of commands.
ghost use Rattle.std.specs.Prelude.{◌≡◌, ◌≢◌, [], ◌∷◌, ◌++◌, List, ℕ, IfOk, OnOk, IfErr};
ghost use Rattle.cc_shelf.specs.ShelfAnswers.{AfterFetch};
ghost use Rattle.cc_text.specs.Refusals.{why_of};
ghost use Rattle.cc_files.specs.World.{shelves};
ghost use Rattle.cc_files.specs.Fetches.{wanted, of_shelf_fault, IsFetched, AllFetched, NoneFailed, NotFetched};
ghost use Rattle.cc_files.specs.Wants.{of_want, of_names, contents_of};
ghost use Rattle.cc_files.specs.Stores.{one_text, of_store_fault, NothingStored, AreStored, StoreStopped};

use cc_shelf::{Shelf, ShelfFault};
use cc_text::{FileFault, Refusal};
use std::alloc::Global;
use word_base::NoMemory;

/// The greatest length of a source, in bytes.
pub const SOURCE_LIMIT: u64 = 1_048_576;

/// The greatest length of an image's text, in bytes.
pub const IMAGE_LIMIT: u64 = 4_194_304;

/// The greatest length of an assembler text, in bytes.
pub const TEXT_LIMIT: u64 = 4_194_304;

/// The greatest length of a sequence file, in bytes.
pub const SEQUENCE_LIMIT: u64 = 16_777_216;

/// The greatest length of a port file, in bytes.
pub const PORTS_LIMIT: u64 = 16_777_216;

/// The greatest length of a script, in bytes.
pub const SCRIPT_LIMIT: u64 = 65_536;

/// The greatest length of a certificate, in bytes.
pub const CERTIFICATE_LIMIT: u64 = 536_870_912;

// Why a command is refused whose file of this name can't be fetched.
fn not_fetched<'a>(name: &'a str, fault: ShelfFault) -> Refusal<'a>
    ensures { why_of result ≡ of_shelf_fault name.now fault }
{
    match fault {
        ShelfFault::Failed | ShelfFault::Absent => Refusal::File {
            name,
            why: FileFault::Read,
        },
        ShelfFault::TooLong { .. } => Refusal::File {
            name,
            why: FileFault::TooLong,
        },
        ShelfFault::NoMemory => Refusal::NoMemory,
    }
}

/// Fetches a file of at most so many bytes. It is refused where the file can't be read, isn't there or is longer, and for want of memory.
pub fn fetch<'a, F: Shelf>(
    alloc: Global,
    shelf: &mut F,
    name: &'a str,
    limit: u64,
) -> Result<Vec<u8>, Refusal<'a>>
    ensures fetched { IfOk result (λ bytes. IsFetched (shelves F.tells (F.stock shelf.old) (F.stock shelf.new)) (wanted name.now limit) bytes.items) }
    ensures asked { OnOk result (NoneFailed (shelves F.tells (F.stock shelf.old) (F.stock shelf.new)) (wanted name.now limit ∷ [])) }
    ensures refused { IfErr result (λ r. NotFetched (shelves F.tells (F.stock shelf.old) (F.stock shelf.new)) (wanted name.now limit ∷ []) (why_of r)) }
    ensures stored { NothingStored (shelves F.tells (F.stock shelf.old) (F.stock shelf.new)) }
    ensures counts { AfterFetch (F.stock shelf.old).counts (F.stock shelf.new).counts }
{
    match shelf.fetch(alloc, name, limit) {
        Ok(bytes) => Ok(bytes),
        Err(fault) => Err(not_fetched(name, fault)),
    }
}

/// The bytes of two files.
#[derive(Drop)]
pub struct Fetched {
    /// The bytes of the one that was fetched first.
    pub bytes: Vec<u8>,
    /// The bytes of the other one.
    pub more: Vec<u8>,
}

/// Fetches a file of at most so many bytes, and then another one. A fetch that is refused is the last; its file is named.
pub fn fetch_both<'a, F: Shelf>(
    alloc: Global,
    shelf: &mut F,
    name: &'a str,
    limit: u64,
    other: &'a str,
    other_limit: u64,
) -> Result<Fetched, Refusal<'a>>
    ensures file { IfOk result (λ both. IsFetched (shelves F.tells (F.stock shelf.old) (F.stock shelf.new)) (wanted name.now limit) both.bytes.items) }
    ensures other { IfOk result (λ both. IsFetched (shelves F.tells (F.stock shelf.old) (F.stock shelf.new)) (wanted other.now other_limit) both.more.items) }
    ensures asked { OnOk result (NoneFailed (shelves F.tells (F.stock shelf.old) (F.stock shelf.new)) (wanted name.now limit ∷ wanted other.now other_limit ∷ [])) }
    ensures refused { IfErr result (λ r. NotFetched (shelves F.tells (F.stock shelf.old) (F.stock shelf.new)) (wanted name.now limit ∷ wanted other.now other_limit ∷ []) (why_of r)) }
    ensures stored { NothingStored (shelves F.tells (F.stock shelf.old) (F.stock shelf.new)) }
{
    let bytes = fetch(alloc, shelf, name, limit)?;
    let more = fetch(alloc, shelf, other, other_limit)?;
    Ok(Fetched { bytes, more })
}

/// A file that is wanted.
#[derive(Clone, Copy)]
pub struct Want<'a> {
    pub name: &'a str,
    /// The greatest length that it may have, in bytes.
    pub limit: u64,
}

/// The bytes of three files, in the order in which they were fetched.
#[derive(Drop)]
pub struct FetchedThree {
    pub first: Vec<u8>,
    pub second: Vec<u8>,
    pub third: Vec<u8>,
}

/// Fetches three files, one behind another. A fetch that is refused is the last; its file is named.
pub fn fetch_three<'a, F: Shelf>(
    alloc: Global,
    shelf: &mut F,
    first: &Want<'a>,
    second: &Want<'a>,
    third: &Want<'a>,
) -> Result<FetchedThree, Refusal<'a>>
    ensures first { IfOk result (λ all. IsFetched (shelves F.tells (F.stock shelf.old) (F.stock shelf.new)) (of_want first.now) all.first.items) }
    ensures second { IfOk result (λ all. IsFetched (shelves F.tells (F.stock shelf.old) (F.stock shelf.new)) (of_want second.now) all.second.items) }
    ensures third { IfOk result (λ all. IsFetched (shelves F.tells (F.stock shelf.old) (F.stock shelf.new)) (of_want third.now) all.third.items) }
    ensures asked { OnOk result (NoneFailed (shelves F.tells (F.stock shelf.old) (F.stock shelf.new)) (of_want first.now ∷ of_want second.now ∷ of_want third.now ∷ [])) }
    ensures refused { IfErr result (λ r. NotFetched (shelves F.tells (F.stock shelf.old) (F.stock shelf.new)) (of_want first.now ∷ of_want second.now ∷ of_want third.now ∷ []) (why_of r)) }
    ensures stored { NothingStored (shelves F.tells (F.stock shelf.old) (F.stock shelf.new)) }
{
    let bytes = fetch(alloc, shelf, first.name, first.limit)?;
    let others = fetch_both(
        alloc,
        shelf,
        second.name,
        second.limit,
        third.name,
        third.limit,
    )?;
    Ok(FetchedThree {
        first: bytes,
        second: others.bytes,
        third: others.more,
    })
}

// Puts the bytes of a file behind those of others.
fn keep(files: &mut Vec<Vec<u8>>, bytes: Vec<u8>) -> Result<(), NoMemory>
    ensures { OnOk result (files.new.items ≡ files.old.items ++ bytes ∷ []) }
{
    Ok(files.push(bytes)?)
}

/// Fetches files of these names and of at most so many bytes each, one behind another. A fetch that is refused is the last; its file is named.
pub fn fetch_all<'a, F: Shelf>(
    alloc: Global,
    shelf: &mut F,
    names: &[&'a str],
    limit: u64,
) -> Result<Vec<Vec<u8>>, Refusal<'a>>
    ensures fetched { IfOk result (λ files. AllFetched (shelves F.tells (F.stock shelf.old) (F.stock shelf.new)) (of_names names.now limit) (contents_of files.items)) }
    ensures asked { OnOk result (NoneFailed (shelves F.tells (F.stock shelf.old) (F.stock shelf.new)) (of_names names.now limit)) }
    ensures refused { IfErr result (λ r. NotFetched (shelves F.tells (F.stock shelf.old) (F.stock shelf.new)) (of_names names.now limit) (why_of r)) }
    ensures stored { NothingStored (shelves F.tells (F.stock shelf.old) (F.stock shelf.new)) }
{
    let mut files = Vec::new(alloc);
    for name in names {
        let bytes = fetch(alloc, shelf, name, limit)?;
        keep(&mut files, bytes)?;
    }
    Ok(files)
}

// Why a command is refused whose file can't be stored.
fn not_stored<'a>(fault: ShelfFault) -> Refusal<'a>
    ensures { why_of result ≡ of_store_fault fault }
{
    match fault {
        ShelfFault::NoMemory => Refusal::NoMemory,
        ShelfFault::Failed | ShelfFault::Absent | ShelfFault::TooLong { .. } => Refusal::Store,
    }
}

/// Stores a file, once. It is refused where it can't be written, and for want of memory; no other file changes.
pub fn store<'a, F: Shelf>(
    alloc: Global,
    shelf: &mut F,
    name: &str,
    bytes: &[u8],
) -> Result<(), Refusal<'a>>
    ensures stored { OnOk result (AreStored (one_text name.now bytes.now) (shelves F.tells (F.stock shelf.old) (F.stock shelf.new))) }
    ensures refused { IfErr result (λ r. StoreStopped name.now (shelves F.tells (F.stock shelf.old) (F.stock shelf.new)) (why_of r)) }
    ensures asked { NoneFailed (shelves F.tells (F.stock shelf.old) (F.stock shelf.new)) [] }
    ensures others { (n : List ℕ) → n ≢ name.now → (F.stock shelf.new).files n ≡ (F.stock shelf.old).files n }
{
    match shelf.store(alloc, name, bytes) {
        Ok(()) => Ok(()),
        Err(fault) => Err(not_stored(fault)),
    }
}
