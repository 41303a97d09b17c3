//! Names, each once.
ghost use Rattle.std.specs.Prelude.{◌≡◌, ◌||◌, ℕ, List, false, OnOk};
ghost use Rattle.std.specs.Str.{bytes_eq};
ghost use Rattle.c_units.specs.Views.{has_name};

use indexmap::IndexSet;
use std::alloc::Global;
use word_base::NoMemory;

/// A set of names.
#[derive(Drop)]
pub(crate) struct Names<'a> {
    pub(crate) names: IndexSet<&'a str>,
}

impl<'a> Names<'a> {
    pub(crate) fn new(alloc: Global) -> Self
        ensures { (name : List ℕ) → has_name result name ≡ false }
    {
        Names {
            names: IndexSet::new(alloc),
        }
    }

    pub(crate) fn insert(&mut self, name: &'a str) -> Result<(), NoMemory>
        ensures { OnOk result ((other : List ℕ) → has_name self.new other ≡ has_name self.old other || bytes_eq name.now other) }
    {
        self.names.insert(name)?;
        Ok(())
    }

    pub(crate) fn contains(&self, name: &str) -> bool
        ensures { result ≡ has_name self.now name.now }
    {
        !self.names.is_empty() && self.names.contains(name)
    }
}
