//! The routines and their names.
ghost use Rattle.std.specs.Prelude.{◌≡◌, map};
ghost use Rattle.c25_helper.specs.Routines.{routine_name, routine_items};
ghost use Rattle.c25_helper.specs.Lines.{line_item};

use crate::line::Line;
use crate::tables::{DIV_INT, DIV_UNSIGNED, REM_INT, REM_UNSIGNED, SHR_INT, SHR_UNSIGNED};

/// What a routine computes of the word at 0300h and that at 0301h, by the rules of C for `int` or for `unsigned`. It returns
/// the word in the low half of ACC.
#[derive(Clone, Copy, PartialEq, Eq)]
pub enum Routine {
    /// `/` of `int`, for a divisor that isn't 0. -32768 by -1 has no value.
    DivInt,
    /// `/` of `unsigned`, for a divisor that isn't 0.
    DivUnsigned,
    /// `%` of `int`, for a divisor that isn't 0. -32768 by -1 has no value.
    RemInt,
    /// `%` of `unsigned`, for a divisor that isn't 0.
    RemUnsigned,
    /// `>>` of `int`, by 0 to 15. The sign is copied.
    ShrInt,
    /// `>>` of `unsigned`, by 0 to 15.
    ShrUnsigned,
}

impl Routine {
    /// All of them, in the order of their pieces.
    pub const ALL: [Routine; 6] = [
        Routine::DivInt,
        Routine::DivUnsigned,
        Routine::RemInt,
        Routine::RemUnsigned,
        Routine::ShrInt,
        Routine::ShrUnsigned,
    ];

    /// The name of its piece, which is no name of C.
    pub fn name(self) -> &'static str
        ensures { result.now ≡ routine_name self }
    {
        match self {
            Routine::DivInt => ".divint",
            Routine::DivUnsigned => ".divuns",
            Routine::RemInt => ".remint",
            Routine::RemUnsigned => ".remuns",
            Routine::ShrInt => ".shrint",
            Routine::ShrUnsigned => ".shruns",
        }
    }

    // The lines of its code.
    pub(crate) fn lines(self) -> &'static [Line]
        ensures { map line_item result.now ≡ routine_items self }
    {
        match self {
            Routine::DivInt => &DIV_INT,
            Routine::DivUnsigned => &DIV_UNSIGNED,
            Routine::RemInt => &REM_INT,
            Routine::RemUnsigned => &REM_UNSIGNED,
            Routine::ShrInt => &SHR_INT,
            Routine::ShrUnsigned => &SHR_UNSIGNED,
        }
    }
}
