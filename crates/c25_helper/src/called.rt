//! Which routines pieces call.
ghost use Rattle.std.specs.Prelude.{◌≡◌, map, fold};
ghost use Rattle.c25_isa.specs.Pieces.{piece_of};
ghost use Rattle.c25_helper.specs.Calls.{is_called, no_calls, with_call, with_item, with_piece, calls_of};

use crate::routine::Routine;
use c25_isa::{Piece, PieceItem};

/// Which routines are called.
#[derive(Clone, Copy)]
pub struct Called {
    div_int: bool,
    div_unsigned: bool,
    rem_int: bool,
    rem_unsigned: bool,
    shr_int: bool,
    shr_unsigned: bool,
}

impl Called {
    /// Those that pieces call.
    pub fn of(pieces: &[Piece]) -> Self
        ensures { result ≡ calls_of (map piece_of pieces.now) }
    {
        let mut called = Called::none();
        for piece in pieces {
            called = called.with_items(&piece.items);
        }
        called
    }

    fn none() -> Self
        ensures { result ≡ no_calls }
    {
        Called {
            div_int: false,
            div_unsigned: false,
            rem_int: false,
            rem_unsigned: false,
            shr_int: false,
            shr_unsigned: false,
        }
    }

    /// Whether a routine is called.
    pub fn has(self, routine: Routine) -> bool
        ensures { result ≡ is_called self routine }
    {
        match routine {
            Routine::DivInt => self.div_int,
            Routine::DivUnsigned => self.div_unsigned,
            Routine::RemInt => self.rem_int,
            Routine::RemUnsigned => self.rem_unsigned,
            Routine::ShrInt => self.shr_int,
            Routine::ShrUnsigned => self.shr_unsigned,
        }
    }

    // And those that items call.
    fn with_items(self, items: &[PieceItem]) -> Self
        ensures { result ≡ fold with_item self items.now }
    {
        let mut called = self;
        for item in items {
            called = called.with_item(item);
        }
        called
    }

    // And the one that an item calls.
    fn with_item(self, item: &PieceItem) -> Self
        ensures { result ≡ with_item self item.now }
    {
        match item {
            PieceItem::CallTo { name, .. } => self.with_call(name.as_str()),
            _ => self,
        }
    }

    // And the one of a name.
    fn with_call(self, name: &str) -> Self
        ensures { result ≡ with_call self name.now }
    {
        Called {
            div_int: self.div_int || name == Routine::DivInt.name(),
            div_unsigned: self.div_unsigned || name == Routine::DivUnsigned.name(),
            rem_int: self.rem_int || name == Routine::RemInt.name(),
            rem_unsigned: self.rem_unsigned || name == Routine::RemUnsigned.name(),
            shr_int: self.shr_int || name == Routine::ShrInt.name(),
            shr_unsigned: self.shr_unsigned || name == Routine::ShrUnsigned.name(),
        }
    }
}
