//! The cells of an object, and what they start with: ISO 9899:1990 6.5.7.
ghost use Rattle.std.specs.Prelude.{◌≡◌, length, replicate, slice_get, slice_set, IfOk};
ghost use Rattle.c_tree.specs.Store as runs;
ghost use Rattle.c_tree.specs.Exec.{initial_cell, zero_of, set_cells};
ghost use Rattle.c_tree.specs.View.{object_of};
ghost use Rattle.c_state.specs.Room.{HasRoom};
ghost use Rattle.c_state.specs.Values.{cell_view, option_cell_of, value_of};

use crate::names::static_name;
use crate::value::{Cell, Spot, Value};
use c_tree::{Initial, Object, ScalarType};
use std::alloc::Global;
use std::marker::Model;
use word_base::NoMemory;

/// The cells of one object, at most 65,535. Contracts see the list of them.
#[derive(Drop)]
pub struct Cells {
    items: Vec<Cell>,
}

impl Model for Cells {
    ghost use Rattle.std.specs.Prelude.{List, ◌≤◌, map, vec_len};
    ghost use Rattle.c_tree.specs.Store as runs;
    ghost use Rattle.c_state.specs.Values.{cell_view};

    ghost Value = { List runs.Cell };

    ghost view = { λ c. map cell_view c.items.items };

    ghost invariant = { λ c. vec_len c.items ≤ 65535 };
}

impl Cells {
    /// So many cells, none of which was written.
    pub fn unset(alloc: Global, length: u16) -> Result<Self, NoMemory>
        ensures { IfOk result (λ cells. cells ≡ replicate length runs.Unset) }
    {
        Ok(Cells {
            items: vec![in alloc; Cell::Unset; usize::from(length)]?,
        })
    }

    /// The listed cells of an object, and zeros or null pointers behind them.
    pub fn listed(alloc: Global, object: &Object) -> Result<Self, NoMemory>
        requires { HasRoom (object_of object.now) }
        ensures { IfOk result (λ cells. cells ≡ set_cells (object_of object.now)) }
    {
        let length = usize::from(object.length);
        let mut items = Vec::with_capacity(alloc, length)?;
        for initial in object.initial.as_slice() {
            items.push(first(*initial))?;
        }
        items.resize(length, zero(object.kind))?;
        Ok(Cells { items })
    }

    /// How many there are.
    pub(crate) fn count(&self) -> u16
        ensures { result ≡ length self.now }
    {
        self.items.len() as u16
    }

    /// The cell at an index, where there is one.
    pub(crate) fn get(&self, index: u16) -> Option<Cell>
        ensures { option_cell_of result ≡ slice_get self.now index }
    {
        self.items.get(usize::from(index)).copied()
    }

    /// A value goes into the cell at an index, where there is one.
    pub(crate) fn set(&mut self, index: u16, value: Value)
        ensures { self.new ≡ slice_set self.old index (runs.Holds (value_of value)) }
    {
        if let Some(cell) = self.items.get_mut(usize::from(index)) {
            *cell = Cell::Holds(value);
        }
    }
}

// What a listed cell starts with.
fn first(initial: Initial) -> Cell
    ensures { cell_view result ≡ initial_cell initial }
{
    Cell::Holds(match initial {
        Initial::Word(word) => Value::Word(word),
        Initial::Address { object, index } => Value::Pointer(Spot {
            object: static_name(object),
            index,
        }),
        Initial::Null => Value::Null,
    })
}

// What a cell past the list starts with.
fn zero(kind: ScalarType) -> Cell
    ensures { cell_view result ≡ zero_of kind }
{
    Cell::Holds(if kind.stars > 0 {
        Value::Null
    } else {
        Value::Word(0)
    })
}
