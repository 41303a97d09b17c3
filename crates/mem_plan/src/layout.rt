//! The addresses of objects and of the words of frames.
ghost use Rattle.std.specs.Prelude.{◌≡◌, ◌≤◌, ◌+◌, map, length, All, IfOk};
ghost use Rattle.std.specs.List.{concat};
ghost use Rattle.c_tree.specs.View.{object_of};
ghost use Rattle.mem_plan.specs.DataNeeds.{own, objects_words, needs_of};
ghost use Rattle.mem_plan.specs.Plan as plans;
ghost use Rattle.mem_plan.specs.Plan.{IsArranged};
ghost use Rattle.tree_code.specs.WordView.{function_code_of};

use crate::data_plan::FramePlan;
use crate::needs::FunctionNeeds;
use c_tree::Object;
use lay_model::ScalarList;
use std::alloc::Global;
use tree_code::TreeFunction;
use word_base::{Items, NoMemory};

/// Where objects lie, one behind another, each with a spare word.
pub(crate) fn object_addresses(
    alloc: Global,
    start: u32,
    list: &[Object],
) -> Result<Items<u16>, NoMemory>
    requires { start + objects_words (map object_of list.now) ≤ 65536 }
    ensures { IfOk result (λ all. all ≡ plans.object_addresses start (map object_of list.now)) }
{
    let mut all = Vec::new(alloc);
    let mut at = start;
    for object in list {
        all.push(at as u16)?;
        at += u32::from(object.length) + 1;
    }
    Ok(Items::new(all))
}

// Where lists of scalars begin, one behind another.
fn list_bases(alloc: Global, start: u32, lists: &[ScalarList]) -> Result<Items<u16>, NoMemory>
    requires some { All (λ list. 1 ≤ length list) lists.now }
    requires room { start + length (concat lists.now) ≤ 65536 }
    ensures { IfOk result (λ all. all ≡ plans.list_bases start lists.now) }
{
    let mut all = Vec::new(alloc);
    let mut at = start as usize;
    for list in lists {
        all.push(at as u16)?;
        at += list.scalars().len();
    }
    Ok(Items::new(all))
}

/// The frame of a function that needs this, from an address on.
pub(crate) fn frame(
    alloc: Global,
    start: u32,
    f: &TreeFunction,
    needs: &FunctionNeeds,
    lists: &[ScalarList],
) -> Result<FramePlan, NoMemory>
    requires needs { needs.now ≡ needs_of (function_code_of f.now) }
    requires arranged { IsArranged (function_code_of f.now) lists.now }
    requires room { start + own (function_code_of f.now) ≤ 65536 }
    ensures { IfOk result (λ frame. frame ≡ plans.frame_of (function_code_of f.now) lists.now start) }
{
    let bases = list_bases(alloc, start, lists)?;
    let locals = object_addresses(alloc, start + u32::from(f.scalars), f.locals.as_slice())?;
    let back = if needs.returns {
        Some((u64::from(start) + needs.own - 1) as u16)
    } else {
        None
    };
    Ok(FramePlan {
        bases,
        locals,
        back,
    })
}
