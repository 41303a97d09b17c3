//! The pieces of functions.
ghost use Rattle.std.specs.Prelude.{◌≡◌, ◌≤◌, length, map, true, vec_items, IfOk};
ghost use Rattle.acc_code.specs.AccView.{function_items_of, item_list};
ghost use Rattle.acc_code.specs.Emittable.{Throughout};
ghost use Rattle.c25_isa.specs.Pieces.{piece_of};
ghost use Rattle.frame_emit.specs.Emitted as spec;
ghost use Rattle.emit_control.specs.Emits.{IsRightItem};
ghost use Rattle.emit_control.specs.Cuts.{function_items as items_of_function};
ghost use Rattle.emit_control.specs.Settings.{setting_of};
ghost use Rattle.emit_blocks.specs.Places.{places_of};
ghost use Rattle.emit_blocks.specs.Right.{HaveRegisters};
ghost use Rattle.tree_code.specs.WordView.{function_code_of};

use crate::frames::{lengths_of, scalar_places};
use acc_code::AccFunction;
use c25_isa::Piece;
use emit_control::{Setting, Site, function_items};
use lay_model::ScalarList;
use mem_plan::{DataPlan, FramePlan};
use std::alloc::Global;
use tree_code::TreeFunction;
use word_base::{NoMemory, Text};

/// What the pieces of all functions are made with.
#[derive(Clone, Copy)]
pub(crate) struct Shared<'a> {
    pub(crate) plan: &'a DataPlan,
    /// The addresses of the parameters of each function.
    pub(crate) parameters: &'a [Vec<u16>],
    pub(crate) functions: &'a [AccFunction],
    /// By which AR0 moves a register.
    pub(crate) step: u8,
}

// The piece of a function that is made with this.
fn listed_piece(alloc: Global, setting: &Setting, function: &AccFunction) -> Result<Piece, NoMemory>
    requires registers { HaveRegisters (places_of setting.now.site).scalars }
    requires right { Throughout IsRightItem (function_items_of function.now).body }
    ensures { IfOk result (λ piece. piece_of piece ≡ record { name = function.now.name; listed = true; items = items_of_function (setting_of setting.now) (function_items_of function.now).body }) }
{
    Ok(Piece {
        name: Text::copy_of(alloc, function.name.as_str())?,
        listed: true,
        items: function_items(alloc, setting, function.body.as_slice())?,
    })
}

/// The piece of a function, by its code, its frame and its lists.
pub(crate) fn function_piece(
    alloc: Global,
    shared: &Shared,
    tree: &TreeFunction,
    function: &AccFunction,
    frame: &FramePlan,
    lists: &[ScalarList],
) -> Result<Piece, NoMemory>
    requires lists { length lists.now ≤ 4 }
    requires right { Throughout IsRightItem (function_items_of function.now).body }
    ensures { IfOk result (λ piece. piece_of piece ≡ spec.function_piece shared.now.plan.now shared.now.step (map vec_items shared.now.parameters.now) (map (λ g. g.name) (map function_items_of shared.now.functions.now)) (function_code_of tree.now) (function_items_of function.now) frame.now lists.now) }
{
    let scalars = scalar_places(alloc, lists, frame.bases.as_slice(), tree.scalars)?;
    let lengths = lengths_of(alloc, tree.locals.as_slice())?;
    let setting = Setting {
        site: Site {
            scalars: &scalars,
            statics: shared.plan.statics.as_slice(),
            locals: frame.locals.as_slice(),
            parameters: shared.parameters,
            step: shared.step,
        },
        lengths: &lengths,
        back: frame.back,
        functions: shared.functions,
    };
    listed_piece(alloc, &setting, function)
}
