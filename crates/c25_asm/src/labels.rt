//! The labels of a text.
ghost use Rattle.std.specs.Prelude.{◌≡◌, ◌<◌, ◌+◌, ◌^◌, ℕ, List, Some, None, if◌then◌else◌, IfOk, IfErr, OnOk};
ghost use Rattle.std.specs.Str.{bytes_eq};
ghost use Rattle.c25_asm.specs.declared.fault.AsmFault.TheVariants as faults;
ghost use Rattle.c25_asm.specs.LabelView.{known};
ghost use Rattle.c25_asm.specs.Names.{or_place};
ghost use Rattle.c25_asm.specs.AssemblerText as assembler;

use crate::fault::AsmFault;
use crate::lines::next_line;
use crate::rows::size_of;
use crate::statement::{Place, label_of};
use indexmap::IndexMap;
use std::alloc::Global;

/// Where each label stands first.
#[derive(Drop)]
pub(crate) struct LabelTable<'a> {
    places: IndexMap<&'a str, Place>,
}

impl<'a> LabelTable<'a> {
    /// Where the label of a name stands, if a line has it.
    pub(crate) fn find(&self, name: &str) -> Option<Place>
        ensures { result ≡ known self.now name.now }
    {
        self.places.get(name).copied()
    }

    // Keeps where a label stands, if no earlier line has it.
    fn note(&mut self, name: &'a str, place: Place) -> Result<(), AsmFault>
        ensures noted { OnOk result ((other : List ℕ) → known self.new other ≡ or_place (known self.old other) (if bytes_eq name.now other then Some place else None)) }
        ensures memory { IfErr result (λ f. f ≡ faults.NoMemory) }
    {
        if self.places.get(name).is_none() {
            self.places.insert(name, place)?;
        }
        Ok(())
    }

    // Keeps the label of a line, if it has one.
    fn note_line(&mut self, line: &'a [u8], place: Place) -> Result<(), AsmFault>
        ensures noted { OnOk result ((other : List ℕ) → known self.new other ≡ or_place (known self.old other) (assembler.place_on line.now place other)) }
        ensures memory { IfErr result (λ f. f ≡ faults.NoMemory) }
    {
        match label_of(line) {
            Some(name) => self.note(name, place),
            None => Ok(()),
        }
    }
}

impl Place {
    // Where the line behind stands.
    fn behind(self, line: &[u8]) -> Self
        requires { self.line + 1 < 2 ^ 64 }
        ensures { result ≡ assembler.place_behind self line.now }
    {
        Place {
            number: self.number.wrapping_add(size_of(line)),
            line: self.line + 1,
        }
    }
}

/// Where the labels of a text stand.
pub(crate) fn labels_of<'a>(alloc: Global, text: &'a [u8]) -> Result<LabelTable<'a>, AsmFault>
    ensures known { IfOk result (λ table. (name : List ℕ) → known table name ≡ assembler.labels_of text.now name) }
    ensures memory { IfErr result (λ f. f ≡ faults.NoMemory) }
{
    let mut table = LabelTable {
        places: IndexMap::new(alloc),
    };
    let mut place = Place { number: 0, line: 1 };
    let mut rest = text;
    while !rest.is_empty() {
        let (line, behind) = next_line(rest);
        table.note_line(line, place)?;
        place = place.behind(line);
        rest = behind;
    }
    Ok(table)
}
