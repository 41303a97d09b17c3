//! Which labels are named.
ghost use Rattle.std.specs.Prelude.{◌≡◌, ℕ, false, ◌==◌, ◌||◌, OnOk};
ghost use Rattle.emit_control.specs.Marked.{names_of};

use std::alloc::Global;
use word_base::NoMemory;

/// Labels that jumps name.
#[derive(Drop)]
pub(crate) struct Named {
    marked: Vec<bool>,
}

impl Named {
    pub(crate) fn none(alloc: Global) -> Self
        ensures { names_of result ≡ λ l. false }
    {
        Named {
            marked: Vec::new(alloc),
        }
    }

    pub(crate) fn has(&self, label: u32) -> bool
        ensures { result ≡ names_of self.now label }
    {
        match self.marked.get(label as usize) {
            Some(marked) => *marked,
            None => false,
        }
    }

    pub(crate) fn add(&mut self, label: u32) -> Result<(), NoMemory>
        ensures { OnOk result (names_of self.new ≡ λ l. l == label || names_of self.old l) }
    {
        let place = label as usize;
        while self.marked.len() <= place {
            self.marked.push(false)?;
        }
        self.marked[place] = true;
        Ok(())
    }
}
