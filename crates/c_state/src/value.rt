//! Values, objects, and how a part of a run stops.
ghost use Rattle.std.specs.Prelude.{◌≡◌};
ghost use Rattle.word_base.specs.declared.outcome.UndefinedKind.TheVariants as kinds;
ghost use Rattle.c_tree.specs.Exec as exec;
ghost use Rattle.c_state.specs.Values.{value_of};
ghost use Rattle.c_state.specs.declared.value.Stop.TheVariants as stops;

use crate::cells::Cells;
use c_tree::ScalarType;
use std::alloc::{AllocError, AllocFailed};
use word_base::{Ending, NoMemory, UndefinedKind};

/// An object by its number, which no other object of the run has. It is found at its place among the living ones, unless one that
/// was made before it has ended.
#[derive(Clone, Copy, PartialEq, Eq)]
pub struct Name {
    pub number: u64,
    pub place: usize,
}

/// A value of one cell.
#[derive(Clone, Copy, PartialEq, Eq)]
pub enum Value {
    Word(u16),
    /// A pointer to a cell of an object, or one past its last.
    Pointer(Spot),
    Null,
}

impl Value {
    /// The word of a switch, whose value is an integer.
    pub fn word(self) -> u16
        ensures { result ≡ exec.word_or_zero (value_of self) }
    {
        match self {
            Value::Word(word) => word,
            Value::Pointer(_) | Value::Null => 0,
        }
    }
}

/// A cell, which holds a value once it was written.
#[derive(Clone, Copy, PartialEq, Eq)]
pub enum Cell {
    Unset,
    Holds(Value),
}

/// A place in the store: an object, and the index of a cell.
#[derive(Clone, Copy, PartialEq, Eq)]
pub struct Spot {
    pub object: Name,
    pub index: u16,
}

/// An object that lives.
#[derive(Drop)]
pub(crate) struct Living {
    pub(crate) number: u64,
    pub(crate) kind: ScalarType,
    pub(crate) cells: Cells,
}

/// Why a part of a run gives no value.
#[derive(Clone, Copy, PartialEq, Eq)]
pub enum Stop {
    Ended(Ending),
    /// A loop would begin a turn too many.
    More,
    /// What comes next isn't defined. The place is a byte offset of the source.
    Undefined { kind: UndefinedKind, at: u32 },
    NoMemory,
}

impl From<NoMemory> for Stop {
    ghost from_gives = { λ _ e. e ≡ stops.NoMemory };

    fn from(_: NoMemory) -> Self {
        Stop::NoMemory
    }
}

impl From<AllocError> for Stop {
    ghost from_gives = { λ _ e. e ≡ stops.NoMemory };

    fn from(_: AllocError) -> Self {
        Stop::NoMemory
    }
}

impl<T: Drop> From<AllocFailed<T>> for Stop {
    ghost from_gives = { λ _ e. e ≡ stops.NoMemory };

    fn from(_: AllocFailed<T>) -> Self {
        Stop::NoMemory
    }
}

/// What isn't defined, at a place.
pub fn undefined(kind: UndefinedKind, at: u32) -> Stop
    ensures { result ≡ stops.Undefined kind at }
{
    Stop::Undefined { kind, at }
}

/// A pointer that points to no cell of the wanted kind, at a place.
pub(crate) fn bad_pointer(at: u32) -> Stop
    ensures { result ≡ stops.Undefined kinds.BadPointer at }
{
    undefined(UndefinedKind::BadPointer, at)
}
