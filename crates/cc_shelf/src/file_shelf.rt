//! A shelf over the file system.
ghost use Rattle.std.specs.Prelude.{◌≡◌, ◌≢◌, List, ℕ, Some, false, OnOk, IfErr, IsErrOf, IsOkUnless, IsTrue};
ghost use Rattle.cc_shelf.specs.Files.{Unchanged};
ghost use Rattle.cc_shelf.specs.Reliable.{StaysReliable};
ghost use Rattle.cc_shelf.specs.ShelfAnswers.{StoreRefused, AfterStore, NoStoreFailed, StoresFoundMemory};
ghost use Rattle.cc_shelf.specs.Stock.{untold_stock};
ghost use Rattle.cc_shelf.specs.Told.{StoreTold};

use crate::shelf::{Shelf, ShelfFault};
use crate::stream::{read_within, write_whole};
use std::alloc::Global;
use std::fs;
use std::rt::Files;

/// The files of the file system, which it doesn't tell. A name is a path, and an absent file is a
/// fetch fault.
#[derive(Drop)]
pub struct FileShelf<'a, R: Files> {
    rt: &'a R,
    pub fetch_faults: u64,
    pub store_faults: u64,
    pub read: u64,
}

impl<'a, R: Files> FileShelf<'a, R> {
    /// The shelf before its first call.
    pub fn new(rt: &'a R) -> Self
        ensures fetch_faults { result.fetch_faults ≡ 0 }
        ensures store_faults { result.store_faults ≡ 0 }
        ensures read { result.read ≡ 0 }
    {
        FileShelf {
            rt,
            fetch_faults: 0,
            store_faults: 0,
            read: 0,
        }
    }
}

impl<'a, R: Files> Shelf for FileShelf<'a, R> {
    ghost tells = { false };

    ghost stock = { λ s. untold_stock s.fetch_faults s.store_faults s.read };

    fn fetch(&mut self, alloc: Global, name: &str, max: u64) -> Result<Vec<u8>, ShelfFault> {
        let Ok(mut file) = fs::open(self.rt, name) else {
            self.fetch_faults = self.fetch_faults.saturating_add(1);
            return Err(ShelfFault::Failed);
        };
        let outcome = read_within(&mut file, alloc, max, &mut self.read);
        if matches!(&outcome, Err(ShelfFault::Failed)) {
            self.fetch_faults = self.fetch_faults.saturating_add(1);
        }
        outcome
    }

    fn store(&mut self, _alloc: Global, name: &str, bytes: &[u8]) -> Result<(), ShelfFault>
        ensures told { OnOk result (IsTrue false → (untold_stock self.new.fetch_faults self.new.store_faults self.new.read).files name.now ≡ Some bytes.now) }
        ensures others { (n : List ℕ) → n ≢ name.now → (untold_stock self.new.fetch_faults self.new.store_faults self.new.read).files n
            ≡ (untold_stock self.old.fetch_faults self.old.store_faults self.old.read).files n }
        ensures memory { IsErrOf result ShelfFault.NoMemory → Unchanged (untold_stock self.old.fetch_faults self.old.store_faults self.old.read).files
            (untold_stock self.new.fetch_faults self.new.store_faults self.new.read).files }
        ensures refused { IfErr result (StoreRefused (untold_stock self.old.fetch_faults self.old.store_faults self.old.read).counts
            (untold_stock self.new.fetch_faults self.new.store_faults self.new.read).counts) }
        ensures counts { AfterStore (untold_stock self.old.fetch_faults self.old.store_faults self.old.read).counts
            (untold_stock self.new.fetch_faults self.new.store_faults self.new.read).counts }
        ensures success { OnOk result (NoStoreFailed (untold_stock self.old.fetch_faults self.old.store_faults self.old.read).counts
            (untold_stock self.new.fetch_faults self.new.store_faults self.new.read).counts) }
        ensures found { OnOk result (StoresFoundMemory (untold_stock self.old.fetch_faults self.old.store_faults self.old.read).counts
            (untold_stock self.new.fetch_faults self.new.store_faults self.new.read).counts) }
        ensures asked { IsTrue false → (untold_stock self.new.fetch_faults self.new.store_faults self.new.read).fetched
            ≡ (untold_stock self.old.fetch_faults self.old.store_faults self.old.read).fetched }
        ensures stored { StoreTold false name.now (untold_stock self.old.fetch_faults self.old.store_faults self.old.read)
            (untold_stock self.new.fetch_faults self.new.store_faults self.new.read) result }
        ensures reliable { StaysReliable (untold_stock self.old.fetch_faults self.old.store_faults self.old.read)
            (untold_stock self.new.fetch_faults self.new.store_faults self.new.read) }
        ensures unreliable { IsErrOf result ShelfFault.Failed → ¬ IsTrue (untold_stock self.old.fetch_faults self.old.store_faults self.old.read).reliable }

        // It takes no memory.
        ensures never { IsOkUnless result ShelfFault.Failed }
    {
        let is_stored = match fs::create(self.rt, name) {
            Ok(mut file) => write_whole(&mut file, bytes),
            Err(_) => false,
        };
        if is_stored {
            return Ok(());
        }
        self.store_faults = self.store_faults.saturating_add(1);
        Err(ShelfFault::Failed)
    }
}
