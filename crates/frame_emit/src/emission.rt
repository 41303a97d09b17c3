//! The pieces of a program.
ghost use Rattle.std.specs.Prelude.{◌≡◌, ◌<◌, ◌≤◌, ◌++◌, length, map, vec_items, All, IfOk, OnOk};
ghost use Rattle.acc_code.specs.AccView.{function_items_of, functions_of};
ghost use Rattle.acc_code.specs.Emittable.{Throughout};
ghost use Rattle.c25_isa.specs.Pieces.{piece_of};
ghost use Rattle.frame_emit.specs.Emitted.{emitted, function_pieces};
ghost use Rattle.frame_emit.specs.Startup.{static_words};
ghost use Rattle.emit_control.specs.Emits.{IsRightItem};
ghost use Rattle.tree_code.specs.ProgramView.{tree_of};
ghost use Rattle.tree_code.specs.WordView.{function_code_of};

use crate::frames::all_parameters;
use crate::pieces::{Shared, function_piece};
use crate::startup::startup_piece;
use acc_code::{AccFunction, AccProgram};
use c25_isa::Piece;
use lay_model::Arrangement;
use mem_plan::{DataPlan, FramePlan};
use std::alloc::Global;
use tree_code::{TreeFunction, TreeProgram};
use word_base::NoMemory;

/// The pieces of a program of accumulator code: the startup, and one for each function, in order, by the word tree that the code is of, by a
/// plan of its data memory, and by an arrangement of the scalars of each function. AR0 moves a register by the step.
///
/// # Errors
///
/// `NoMemory` only where an allocation fails, or where a function has more labels than numbers of 32 bits.
pub fn emit(
    alloc: Global,
    acc: &AccProgram,
    plan: &DataPlan,
    arrangements: &[Arrangement],
    step: u8,
    tree: &TreeProgram,
) -> Result<Vec<Piece>, NoMemory>
    requires statics { static_words (tree_of tree.now).statics < 65536 }
    requires lists { All (λ lists. length lists ≤ 4) arrangements.now }
    requires right { All (λ g. Throughout IsRightItem g.body) (functions_of acc.now) }
    ensures { IfOk result (λ pieces. map piece_of pieces.items ≡ emitted (tree_of tree.now) (functions_of acc.now) plan.now arrangements.now step) }
{
    let functions = tree.functions.as_slice();
    let frames = plan.frames.as_slice();
    let parameters = all_parameters(alloc, functions, frames, arrangements)?;
    let shared = Shared {
        plan,
        parameters: &parameters,
        functions: acc.functions.as_slice(),
        step,
    };
    let mut pieces = Vec::new(alloc);
    let statics = plan.statics.as_slice();
    pieces.push(startup_piece(alloc, statics, tree.statics.as_slice())?)?;
    push_functions(alloc, &mut pieces, &shared, functions, frames, arrangements)?;
    Ok(pieces)
}

// The pieces of functions, each with its code, its frame and its arrangement.
fn push_functions(
    alloc: Global,
    pieces: &mut Vec<Piece>,
    shared: &Shared,
    trees: &[TreeFunction],
    frames: &[FramePlan],
    arrangements: &[Arrangement],
) -> Result<(), NoMemory>
    requires lists { All (λ lists. length lists ≤ 4) arrangements.now }
    requires right { All (λ g. Throughout IsRightItem g.body) (map function_items_of shared.now.functions.now) }
    ensures { OnOk result (map piece_of pieces.new.items ≡ map piece_of pieces.old.items ++ function_pieces shared.now.plan.now shared.now.step (map vec_items shared.now.parameters.now) (map (λ g. g.name) (map function_items_of shared.now.functions.now)) (map function_code_of trees.now) (map function_items_of shared.now.functions.now) frames.now arrangements.now) }
{
    let mut rest = trees;
    let mut functions = shared.functions;
    let mut later_frames = frames;
    let mut later_arrangements = arrangements;
    while let Some((tree, behind)) = rest.split_first() {
        let Some((function, functions_behind)) = functions.split_first() else {
            return Ok(());
        };
        let Some((frame, frames_behind)) = later_frames.split_first() else {
            return Ok(());
        };
        let Some((arrangement, arrangements_behind)) = later_arrangements.split_first() else {
            return Ok(());
        };
        let lists = arrangement.lists();
        pieces.push(function_piece(alloc, shared, tree, function, frame, lists)?)?;
        rest = behind;
        functions = functions_behind;
        later_frames = frames_behind;
        later_arrangements = arrangements_behind;
    }
    Ok(())
}
