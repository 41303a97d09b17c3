//! The objects of a run: ISO 9899:1990 6.1.2.4. Objects of blocks live one within another, so the living ones stand on a stack.
ghost use Rattle.std.specs.Prelude.{◌≡◌, [], length, IfOk, OnOk, MatchOption, option_map, None};
ghost use Rattle.c_state.specs.Objects.{AreNumbered, AreNumbered-prop, living_of, IsFound};
ghost use Rattle.c_state.specs.Values.{option_cell_of, value_of};

use crate::cells::Cells;
use crate::value::{Cell, Living, Name, Value};
use c_tree::ScalarType;
use std::alloc::Global;
use word_base::NoMemory;

/// The objects that live, and how many were made.
#[derive(Drop)]
pub struct Store {
    /// The living objects, in the order of their making.
    objects: Vec<Living>,
    made: u64,
    ghost numbered: { AreNumbered 0 made objects.items } by { AreNumbered-prop 0 made objects.items },
}

impl Store {
    ghost use Rattle.c_tree.specs.Store as runs;
    ghost use Rattle.c_tree.specs.Exec.{cells_set};
    ghost use Rattle.c_state.specs.Stores.{store_of};

    /// No object was made yet.
    pub fn new(alloc: Global) -> Self
        ensures { store_of result ≡ record { made = 0; living = λ _. None } }
    {
        Store {
            objects: Vec::new(alloc),
            made: 0,
        }
    }

    /// A new object of a type with these cells. It fails where an allocation fails, and where 2^64 - 1 objects were made.
    pub fn make(&mut self, kind: ScalarType, cells: Cells) -> Result<Name, NoMemory>
        ensures made { OnOk result (store_of self.new ≡ runs.with_new (record { cells = cells; kind = kind }) (store_of self.old)) }
        ensures number { IfOk result (λ name. name.number ≡ (store_of self.old).made) }
    {
        let name = Name {
            number: self.made,
            place: self.objects.len(),
        };
        let made = self.made.checked_add(1).ok_or(NoMemory)?;
        self.objects.push(Living {
            number: self.made,
            kind,
            cells,
        })?;
        self.made = made;
        Ok(name)
    }

    /// An object ends, where it lives.
    pub fn finish(&mut self, object: Name)
        ensures { store_of self.new ≡ runs.with_object object.number None (store_of self.old) }
    {
        if let Some(place) = find(&self.objects, object) {
            self.objects.remove(place);
        }
    }

    /// How many cells an object has, while it lives.
    pub(crate) fn length(&self, object: Name) -> Option<u16>
        ensures { result ≡ option_map (λ o. length o.cells) ((store_of self.now).living object.number) }
    {
        let place = find(&self.objects, object)?;
        Some(self.objects[place].cells.count())
    }

    /// A cell of an object that lives and is of the wanted kind.
    pub(crate) fn cell(&self, object: Name, index: u16, is_pointer: bool) -> Option<Cell>
        ensures { option_cell_of result ≡ runs.cell_of ((store_of self.now).living object.number) index is_pointer }
    {
        let place = find(&self.objects, object)?;
        let living = &self.objects[place];
        if (living.kind.stars > 0) != is_pointer {
            return None;
        }
        living.cells.get(index)
    }

    /// A value goes into a cell, where the object lives and has it.
    pub fn set(&mut self, object: Name, index: u16, value: Value)
        ensures { store_of self.new ≡ runs.with_object object.number (runs.with_cell ((store_of self.old).living object.number) index (value_of value)) (store_of self.old) }
    {
        if let Some(place) = find(&self.objects, object) {
            self.objects[place].cells.set(index, value);
        }
    }

    /// An object gets these cells, where it lives.
    pub fn fill(&mut self, object: Name, cells: Cells)
        ensures { store_of self.new ≡ runs.with_object object.number (cells_set ((store_of self.old).living object.number) cells) (store_of self.old) }
    {
        if let Some(place) = find(&self.objects, object) {
            self.objects[place].cells = cells;
        }
    }
}

// The place of an object, while it lives: as a rule the place at which it was made.
fn find(objects: &[Living], object: Name) -> Option<usize>
    ensures { MatchOption result (living_of objects.now object.number ≡ None) (λ place. IsFound objects.now object.number place) }
{
    match objects.get(object.place) {
        Some(living) if living.number == object.number => Some(object.place),
        _ => objects
            .iter()
            .position(|living| living.number == object.number),
    }
}
