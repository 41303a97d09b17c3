//! The plan of a program.
ghost use Rattle.std.specs.Prelude.{◌≡◌, ◌≤◌, ◌+◌, map, length, slice_index, All, IfOk, IfErr};
ghost use Rattle.mem_plan.specs.DataNeeds as data_needs;
ghost use Rattle.mem_plan.specs.DataNeeds.{most_object_words, own};
ghost use Rattle.mem_plan.specs.Gathered.{most_begin, most_own};
ghost use Rattle.mem_plan.specs.Plan.{AreArranged, IsPlan, Says, end_from, frames_from};
ghost use Rattle.tree_code.specs.ProgramView.{tree_of};
ghost use Rattle.tree_code.specs.WordView.{function_code_of};

use crate::begins::{begins_of, larger};
use crate::data_plan::{
    DATA_START, DataPlan, FramePlan, MOST_DATA_WORDS, PlanFault, SCRATCH_WORDS,
};
use crate::layout::{frame, object_addresses};
use crate::needs::{FunctionNeeds, needs_of, objects_words};
use lay_model::Arrangement;
use std::alloc::Global;
use tree_code::{TreeFunction, TreeProgram};
use word_base::{Items, NoMemory};

/// Where the static objects begin.
const STATICS_START: u32 = DATA_START as u32 + SCRATCH_WORDS as u32;

/// Where the data of a program lies, by an arrangement of the scalars of each function, in order, with at most `MOST_LISTS` lists.
/// It takes time in proportion to the program and the arrangements.
///
/// # Errors
///
/// `DataFull` exactly where the program needs more than `MOST_DATA_WORDS` words. `NoMemory` where an allocation fails.
pub fn plan(
    alloc: Global,
    tree: &TreeProgram,
    arrangements: &[Arrangement],
) -> Result<DataPlan, PlanFault>
    requires { AreArranged (tree_of tree.now).functions arrangements.now }
    ensures plan { IfOk result (IsPlan (tree_of tree.now) arrangements.now) }
    ensures refused { IfErr result (Says (tree_of tree.now)) }
{
    let functions = tree.functions.as_slice();
    let needs = needs_of(alloc, functions)?;
    let begins = begins_of(alloc, &needs)?;
    let statics = tree.statics.as_slice();
    let static_words = objects_words(statics);
    let words = u64::from(SCRATCH_WORDS) + static_words + greatest_end(&needs, &begins);
    if words > u64::from(MOST_DATA_WORDS) {
        return Err(PlanFault::DataFull { words });
    }
    let start = STATICS_START + static_words as u32;
    Ok(DataPlan {
        statics: object_addresses(alloc, STATICS_START, statics)?,
        frames: frames(alloc, start, functions, &needs, &begins, arrangements)?,
        used: words as u32,
    })
}

// Where the last of the frames end, in words behind the static objects.
fn greatest_end(needs: &[FunctionNeeds], begins: &[u64]) -> u64
    requires size { length begins.now ≡ length needs.now }
    requires begins { All (λ begin. begin ≤ most_begin) begins.now }
    requires own { All (λ f. f.own ≤ most_own) needs.now }
    ensures is { result ≡ end_from (slice_index begins.now) 0 (map (λ f. f.own) needs.now) }
    ensures small { result ≤ most_begin + most_own }
{
    let mut greatest = 0;
    for (number, f) in needs.iter().enumerate() {
        greatest = larger(greatest, begins[number] + f.own);
    }
    greatest
}

// The frames, by where the first of them begins.
fn frames(
    alloc: Global,
    start: u32,
    functions: &[TreeFunction],
    needs: &[FunctionNeeds],
    begins: &[u64],
    arrangements: &[Arrangement],
) -> Result<Items<FramePlan>, NoMemory>
    requires needs { needs.now ≡ map data_needs.needs_of (map function_code_of functions.now) }
    requires size { length begins.now ≡ length needs.now }
    requires arranged { AreArranged (map function_code_of functions.now) arrangements.now }
    requires room { start + end_from (slice_index begins.now) 0 (map own (map function_code_of functions.now)) ≤ 65536 }
    ensures { IfOk result (λ all. all ≡ frames_from start (slice_index begins.now) 0 (map function_code_of functions.now) arrangements.now) }
{
    let mut all = Vec::new(alloc);
    for (number, f) in functions.iter().enumerate() {
        let at = start + begins[number] as u32;
        let lists = arrangements[number].lists();
        all.push(frame(alloc, at, f, &needs[number], lists)?)?;
    }
    Ok(Items::new(all))
}
