//! The files that the commands read and write.
ghost use Rattle.std.specs.Prelude.{◌≡◌, ◌≢◌, ◌≤◌, List, ℕ, Bool, Some, IfOk, IfErr, OnOk, IsTrue, IsErrOf, vec_len};
ghost use Rattle.cc_shelf.specs.Told.{FetchTold, StoreTold};
ghost use Rattle.cc_shelf.specs.Files.{Unchanged};
ghost use Rattle.cc_shelf.specs.ShelfAnswers.{FetchRefused, StoreRefused, AfterFetch, AfterStore, NoFetchFailed, NoStoreFailed, StoresFoundMemory};
ghost use Rattle.cc_shelf.specs.Stock.{Stock};
ghost use Rattle.cc_shelf.specs.Reliable.{StaysReliable};

use std::alloc::{AllocError, AllocFailed, Global};
use word_base::NoMemory;

/// Why a shelf refused a call.
#[derive(Clone, Copy, Debug, PartialEq, Eq)]
pub enum ShelfFault {
    /// The call failed, and the shelf counted it.
    Failed,
    /// The shelf tells its files, and has none of that name.
    Absent,
    /// The file has at least this many bytes, which is more than was wanted.
    TooLong { at_least: u64 },
    NoMemory,
}

impl From<AllocError> for ShelfFault {
    ghost use Rattle.cc_shelf.specs.declared.shelf.ShelfFault.TheVariants.{NoMemory};

    ghost from_gives = { λ _ e. e ≡ NoMemory };

    fn from(_: AllocError) -> Self {
        ShelfFault::NoMemory
    }
}

impl<T: Drop> From<AllocFailed<T>> for ShelfFault {
    ghost use Rattle.cc_shelf.specs.declared.shelf.ShelfFault.TheVariants.{NoMemory};

    ghost from_gives = { λ _ e. e ≡ NoMemory };

    fn from(_: AllocFailed<T>) -> Self {
        ShelfFault::NoMemory
    }
}

impl From<NoMemory> for ShelfFault {
    ghost use Rattle.cc_shelf.specs.declared.shelf.ShelfFault.TheVariants.{NoMemory};

    ghost from_gives = { λ _ e. e ≡ NoMemory };

    fn from(_: NoMemory) -> Self {
        ShelfFault::NoMemory
    }
}

/// Files under names. A shelf may tell what it holds, which names fetches and stores asked for and
/// which of these failed, and then contracts speak of them. It counts its failed fetches, its failed
/// stores, the stores that found no memory and the bytes that it read; each count stays at its greatest
/// value once it stands there. It may be known that no call that comes can fail, for want of memory
/// aside.
pub trait Shelf {
    /// Whether the shelf tells its files, its fetches and its stores.
    ghost tells: { Bool };

    /// What it holds. Where the shelf doesn't tell, only the counts and `reliable` mean something.
    ghost stock: { Self → Stock };

    /// The bytes of a file, of which there are at most `max`.
    fn fetch(&mut self, alloc: Global, name: &str, max: u64) -> Result<Vec<u8>, ShelfFault>
        ensures unchanged { Unchanged (stock self.old).files (stock self.new).files }
        ensures length { IfOk result (λ bytes. vec_len bytes ≤ max) }
        ensures told { IfOk result (λ bytes. IsTrue tells → (stock self.old).files name.now ≡ Some bytes.items) }
        ensures refused { IfErr result (FetchRefused tells name.now max (stock self.old) (stock self.new)) }
        ensures counts { AfterFetch (stock self.old).counts (stock self.new).counts }
        ensures success { OnOk result (NoFetchFailed (stock self.old).counts (stock self.new).counts) }
        ensures asked { FetchTold tells name.now (stock self.old) (stock self.new) result }
        ensures stored { (stock self.new).stored ≡ (stock self.old).stored }
        ensures reliable { StaysReliable (stock self.old) (stock self.new) }
        ensures unreliable { IsErrOf result ShelfFault.Failed → ¬ IsTrue (stock self.old).reliable };

    /// Makes the name hold the bytes. Where it fails, that name may hold anything.
    fn store(&mut self, alloc: Global, name: &str, bytes: &[u8]) -> Result<(), ShelfFault>
        ensures told { OnOk result (IsTrue tells → (stock self.new).files name.now ≡ Some bytes.now) }
        ensures others { (n : List ℕ) → n ≢ name.now → (stock self.new).files n ≡ (stock self.old).files n }
        ensures memory { IsErrOf result ShelfFault.NoMemory → Unchanged (stock self.old).files (stock self.new).files }
        ensures refused { IfErr result (StoreRefused (stock self.old).counts (stock self.new).counts) }
        ensures counts { AfterStore (stock self.old).counts (stock self.new).counts }
        ensures success { OnOk result (NoStoreFailed (stock self.old).counts (stock self.new).counts) }
        ensures found { OnOk result (StoresFoundMemory (stock self.old).counts (stock self.new).counts) }
        ensures asked { IsTrue tells → (stock self.new).fetched ≡ (stock self.old).fetched }
        ensures stored { StoreTold tells name.now (stock self.old) (stock self.new) result }
        ensures reliable { StaysReliable (stock self.old) (stock self.new) }
        ensures unreliable { IsErrOf result ShelfFault.Failed → ¬ IsTrue (stock self.old).reliable };
}
