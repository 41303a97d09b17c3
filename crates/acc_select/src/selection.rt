//! The accumulator code of a program.
#![tactic(auto, using(acc_operations::proofs::ItemLemmas::item_lists))]

ghost use Rattle.std.specs.Prelude.{◌≡◌, ◌≤◌, All, IfOk, OnOk, map};
ghost use Rattle.acc_code.specs.AccSequence.{IsInFrame};
ghost use Rattle.acc_code.specs.AccTree.{Return, end, ◌▸◌, ◌⧺◌};
ghost use Rattle.acc_code.specs.AccView.{item_of, item_list, function_items_of, functions_of};
ghost use Rattle.acc_operations.specs.Appended.{Appends};
ghost use Rattle.acc_select.specs.Conditions.{number};
ghost use Rattle.acc_select.specs.Ends as ends;
ghost use Rattle.acc_select.specs.IsSelected.{IsEmittable};
ghost use Rattle.acc_select.specs.LocalObjects.{HaveFewCells};
ghost use Rattle.acc_select.specs.Selected as selected;
ghost use Rattle.c_tree.specs.declared.limits.TheConstants.{MOST_FRAME_SCALARS};
ghost use Rattle.tree_code.specs.ProgramView.{tree_of};
ghost use Rattle.tree_code.specs.WordTemporaries.{word_statement_temporaries};
ghost use Rattle.tree_code.specs.WordView.{function_code_of, word_stmt_of};

use crate::statements::statement;
use acc_code::{AccFunction, AccItem, AccOp, AccOperand, AccProgram};
use acc_operations::{op, push};
use std::alloc::Global;
use tree_code::{TreeFunction, TreeProgram, temporaries};
use word_base::{Items, NoMemory, Text};

/// The accumulator code of a program of word trees. It is what emission wants beside that program, and each of its functions is what
/// `sequence` wants.
pub fn select(alloc: Global, program: &TreeProgram) -> Result<AccProgram, NoMemory>
    ensures functions { IfOk result (λ p. functions_of p ≡ selected.selected (tree_of program.now)) }
    ensures emittable { IfOk result (λ p. IsEmittable (tree_of program.now) (functions_of p)) }
    ensures in_frame { IfOk result (λ p. All IsInFrame (functions_of p)) }
{
    let functions = functions(alloc, program.functions.as_slice())?;
    Ok(AccProgram { functions })
}

fn functions(alloc: Global, list: &[TreeFunction]) -> Result<Items<AccFunction>, NoMemory>
    requires temporaries { All (λ f. word_statement_temporaries (word_stmt_of f.body) ≤ MOST_FRAME_SCALARS) list.now }
    requires cells { All (λ f. HaveFewCells f.locals) list.now }
    ensures { IfOk result (λ all. map function_items_of all ≡ map selected.selected_function (map function_code_of list.now)) }
{
    let mut all = Vec::new(alloc);
    for f in list {
        all.push(function(alloc, f)?)?;
    }
    Ok(Items::new(all))
}

fn function(alloc: Global, f: &TreeFunction) -> Result<AccFunction, NoMemory>
    requires temporaries { word_statement_temporaries (word_stmt_of f.now.body) ≤ MOST_FRAME_SCALARS }
    requires cells { HaveFewCells f.now.locals }
    ensures { IfOk result (λ a. function_items_of a ≡ selected.selected_function (function_code_of f.now)) }
{
    let body = body(alloc, f)?;
    let name = Text::copy_of(alloc, f.name.as_str())?;
    Ok(AccFunction {
        name,
        scalars: f.scalars,
        body: Items::new(body),
    })
}

// The code of a body, which ends with a `Return` where it is that of `main`.
fn body(alloc: Global, f: &TreeFunction) -> Result<Vec<AccItem>, NoMemory>
    requires temporaries { word_statement_temporaries (word_stmt_of f.now.body) ≤ MOST_FRAME_SCALARS }
    requires cells { HaveFewCells f.now.locals }
    ensures { IfOk result (λ body. item_list body.items ≡ (selected.selected_function (function_code_of f.now)).body) }
{
    let mut body = Vec::new(alloc);
    let t = f.scalars.saturating_sub(temporaries(&f.body));
    statement(alloc, &f.body, &mut body, f.locals.as_slice(), t)?;
    if f.name.as_str() == "main" {
        close_main(&mut body)?;
    }
    Ok(body)
}

// The function `main` gives 0 at its end.
fn close_main(code: &mut Vec<AccItem>) -> Result<(), NoMemory>
    ensures { OnOk result (item_list code.new.items ≡ selected.closed_main (item_list code.old.items)) }
{
    if ends_with_return(code) {
        Ok(())
    } else {
        give_zero(code)
    }
}

fn give_zero(code: &mut Vec<AccItem>) -> Result<(), NoMemory>
    ensures { OnOk result (Appends code.old.items code.new.items (number 0 ⧺ Return ▸ end)) }
{
    op(code, AccOp::Lack, AccOperand::Number(0))?;
    push(code, AccItem::Return)
}

fn ends_with_return(list: &[AccItem]) -> bool
    ensures { result ≡ selected.ends_with_return (item_list list.now) }
{
    let mut ends = false;
    for item in list {
        ends = is_return(item);
    }
    ends
}

fn is_return(item: &AccItem) -> bool
    ensures { result ≡ ends.is_return (item_of item.now) }
{
    match item {
        AccItem::Return => true,
        _ => false,
    }
}
