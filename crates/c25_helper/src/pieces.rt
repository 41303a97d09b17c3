//! The pieces of routines.
ghost use Rattle.std.specs.Prelude.{◌≡◌, ◌++◌, [], ◌∷◌, filter, map, if◌then◌else◌, All, IfOk, OnOk};
ghost use Rattle.c25_isa.specs.Pieces.{piece_of};
ghost use Rattle.c25_helper.specs.Routines.{routine_piece, helper_pieces};
ghost use Rattle.c25_helper.specs.Calls.{is_called, called_helper_pieces};
ghost use Rattle.c25_helper.specs.Results.{IsHelper};
ghost use Rattle.c25_helper.specs.Answering.{AllAnswer, AnswersCalls};

use crate::called::Called;
use crate::line::items_of;
use crate::routine::Routine;
use c25_isa::Piece;
use std::alloc::Global;
use word_base::{NoMemory, Text};

/// The pieces of all routines.
pub fn helpers(alloc: Global) -> Result<Vec<Piece>, NoMemory>
    ensures pieces { IfOk result (λ pieces. map piece_of pieces.items ≡ helper_pieces) }
    // Where one is called it comes back with the value that C has.
    ensures results { IfOk result (λ pieces. All IsHelper (map piece_of pieces.items)) }
    ensures answers { IfOk result (λ pieces. AllAnswer (map piece_of pieces.items)) }
{
    let mut pieces = Vec::new(alloc);
    for routine in &Routine::ALL {
        push_piece(alloc, &mut pieces, *routine, true)?;
    }
    Ok(pieces)
}

/// The pieces of those routines whose names pieces call.
pub fn called_helpers(alloc: Global, pieces: &[Piece]) -> Result<Vec<Piece>, NoMemory>
    ensures pieces { IfOk result (λ helpers. map piece_of helpers.items ≡ called_helper_pieces (map piece_of pieces.now)) }
    ensures results { IfOk result (λ helpers. All IsHelper (map piece_of helpers.items)) }
    ensures answers { IfOk result (λ helpers. AnswersCalls (map piece_of pieces.now) (map piece_of helpers.items)) }
{
    pieces_of_called(alloc, &Routine::ALL, Called::of(pieces))
}

// The pieces of those of some routines that are called.
fn pieces_of_called(
    alloc: Global,
    routines: &[Routine],
    called: Called,
) -> Result<Vec<Piece>, NoMemory>
    ensures { IfOk result (λ pieces. map piece_of pieces.items ≡ map routine_piece (filter (is_called called) routines.now)) }
{
    let mut pieces = Vec::new(alloc);
    for routine in routines {
        push_piece(alloc, &mut pieces, *routine, called.has(*routine))?;
    }
    Ok(pieces)
}

// The piece of a routine that is wanted, behind others.
fn push_piece(
    alloc: Global,
    pieces: &mut Vec<Piece>,
    routine: Routine,
    wanted: bool,
) -> Result<(), NoMemory>
    ensures { OnOk result (map piece_of pieces.new.items ≡ map piece_of pieces.old.items ++ (if wanted then routine_piece routine ∷ [] else [])) }
{
    if wanted {
        pieces.push(piece_of_routine(alloc, routine)?)?;
    }
    Ok(())
}

// The piece of a routine. It isn't listed.
fn piece_of_routine(alloc: Global, routine: Routine) -> Result<Piece, NoMemory>
    ensures { IfOk result (λ piece. piece_of piece ≡ routine_piece routine) }
{
    Ok(Piece {
        name: Text::copy_of(alloc, routine.name())?,
        listed: false,
        items: items_of(alloc, routine.lines())?,
    })
}
