//! The list that a local object starts with.
#![tactic(auto, using(acc_operations::proofs::ItemLemmas::item_lists))]

ghost use Rattle.std.specs.Prelude.{◌≡◌, ◌≤◌, OnOk, length, map, slice_get};
ghost use Rattle.acc_code.specs.AccTree.{end, ◌▸◌};
ghost use Rattle.acc_operations.specs.Appended.{Appends};
ghost use Rattle.acc_operations.specs.Constants as constants;
ghost use Rattle.acc_select.specs.Forms as form;
ghost use Rattle.acc_select.specs.LocalObjects.{HaveFewCells};
ghost use Rattle.acc_select.specs.Selected as selected;
ghost use Rattle.acc_operations.specs.Words as word;
ghost use Rattle.acc_operations.specs.declared.constant.Constant.TheVariants as constant;
ghost use Rattle.acc_code.specs.declared.operand.AccOperand.TheVariants as operand;
ghost use Rattle.c_tree.specs.View.{object_of};
ghost use Rattle.c_tree.specs.declared.limits.TheConstants.{MOST_CELLS};
ghost use Rattle.c_tree.specs.declared.program.VarRef.TheVariants.{Local};

use crate::code::{Code, Result};
use acc_code::{AccItem, AccOp, AccOperand};
use acc_operations::{Constant, bare, initial_constant, load_constant, push, sacl};
use tree_code::{Initial, Object, VarRef};

/// Gives a local object its list.
pub(crate) fn fill(code: &mut Code, locals: &[Object], number: u32) -> Result<()>
    requires { HaveFewCells locals.now }
    ensures { OnOk result (Appends code.old.items code.new.items (selected.fill_items number (slice_get (map object_of locals.now) number))) }
{
    match locals.get(number as usize) {
        Some(object) => cells(code, number, object.initial.as_slice()),
        None => Ok(()),
    }
}

fn cells(code: &mut Code, number: u32, list: &[Initial]) -> Result<()>
    requires { length list.now ≤ MOST_CELLS }
    ensures { OnOk result (Appends code.old.items code.new.items (selected.cell_items number 0 list.now)) }
{
    let object = VarRef::Local(number);
    let mut index: u16 = 0;
    for x in list {
        set_cell(code, object, index, x)?;
        index += 1;
    }
    push(
        code,
        AccItem::Clear {
            object,
            from: index,
        },
    )
}

fn set_cell(code: &mut Code, object: VarRef, index: u16, x: &Initial) -> Result<()>
    ensures { OnOk result (Appends code.old.items code.new.items (constants.load_constant (constant.Address object index) ▸ form.point ▸ constants.load_constant (constants.initial_constant x.now) ▸ word.sacl operand.Pointed ▸ end)) }
{
    load_constant(code, Constant::Address { object, index })?;
    bare(code, AccOp::Point)?;
    load_constant(code, initial_constant(*x))?;
    sacl(code, AccOperand::Pointed)
}
