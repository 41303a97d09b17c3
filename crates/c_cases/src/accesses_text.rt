//! Access sequences as texts.
ghost use Rattle.std.specs.Prelude.{All};
ghost use Rattle.acc_code.specs.AccSequence.{IsInFrame};
ghost use Rattle.acc_code.specs.AccView.{function_items_of, functions_of};

use acc_select::{AccFunction, AccProgram, select, sequence};
use c_tree::Program;
use lay_model::Sequence;
use std::alloc::Global;
use tree_code::lower;
use word_base::NoMemory;

/// Puts the accesses of each function behind.
pub(crate) fn push_accesses(
    alloc: Global,
    out: &mut String,
    program: &Program,
) -> Result<(), NoMemory> {
    let tree = lower(alloc, program)?;
    let code = select(alloc, &tree)?;
    push_program(alloc, out, &code)
}

fn push_program(alloc: Global, out: &mut String, code: &AccProgram) -> Result<(), NoMemory>
    requires in_frame { All IsInFrame (functions_of code.now) }
{
    push_functions(alloc, out, code.functions.as_slice())
}

fn push_functions(alloc: Global, out: &mut String, list: &[AccFunction]) -> Result<(), NoMemory>
    requires in_frame { All (λ f. IsInFrame (function_items_of f)) list.now }
{
    let mut is_first = true;
    for f in list {
        push_separator(out, is_first)?;
        push_function(alloc, out, f)?;
        is_first = false;
    }
    Ok(())
}

// What stands between functions.
fn push_separator(out: &mut String, is_first: bool) -> Result<(), NoMemory> {
    if !is_first {
        out.push_str("; ")?;
    }
    Ok(())
}

fn push_function(alloc: Global, out: &mut String, f: &AccFunction) -> Result<(), NoMemory>
    requires in_frame { IsInFrame (function_items_of f.now) }
{
    let (name, scalars) = (f.name.as_str(), f.scalars);
    write!(out, "{name} {scalars}: ")?;
    push_blocks(out, &sequence(alloc, f)?)
}

fn push_blocks(out: &mut String, sequence: &Sequence) -> Result<(), NoMemory> {
    let blocks = sequence.blocks();
    if blocks.len() == 0 {
        out.push('-')?;
    }
    let mut between = "";
    for index in 0..blocks.len() {
        out.push_str(between)?;
        push_block(out, blocks.accesses(index))?;
        between = " | ";
    }
    Ok(())
}

fn push_block(out: &mut String, accesses: &[u8]) -> Result<(), NoMemory> {
    let mut between = "";
    for scalar in accesses {
        write!(out, "{between}{scalar}")?;
        between = " ";
    }
    Ok(())
}

/// Puts behind how many accesses the functions have in how many blocks.
pub(crate) fn push_access_counts(
    alloc: Global,
    out: &mut String,
    program: &Program,
) -> Result<(), NoMemory> {
    let tree = lower(alloc, program)?;
    let code = select(alloc, &tree)?;
    let (accesses, blocks) = program_counts(alloc, &code)?;
    write!(out, "{accesses} accesses in {blocks} blocks")?;
    Ok(())
}

fn program_counts(alloc: Global, code: &AccProgram) -> Result<(usize, usize), NoMemory>
    requires in_frame { All IsInFrame (functions_of code.now) }
{
    counts(alloc, code.functions.as_slice())
}

fn counts(alloc: Global, list: &[AccFunction]) -> Result<(usize, usize), NoMemory>
    requires in_frame { All (λ f. IsInFrame (function_items_of f)) list.now }
{
    let mut accesses: usize = 0;
    let mut blocks: usize = 0;
    for f in list {
        let (more, further) = function_counts(alloc, f)?;
        accesses = accesses.saturating_add(more);
        blocks = blocks.saturating_add(further);
    }
    Ok((accesses, blocks))
}

fn function_counts(alloc: Global, f: &AccFunction) -> Result<(usize, usize), NoMemory>
    requires in_frame { IsInFrame (function_items_of f.now) }
{
    let found = sequence(alloc, f)?;
    Ok((access_count(&found), found.blocks().len()))
}

fn access_count(sequence: &Sequence) -> usize {
    let mut count: usize = 0;
    let blocks = sequence.blocks();
    for index in 0..blocks.len() {
        count = count.saturating_add(blocks.accesses(index).len());
    }
    count
}
