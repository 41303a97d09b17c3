//! The text of a layout.
ghost use Rattle.std.specs.Prelude.{◌≡◌, ◌++◌, IfOk, OnOk};
ghost use Rattle.cc_answers.specs.LayoutText.{cost_line, register_line, register_lines, layout_answer};
ghost use Rattle.cc_answers.specs.Answers.{answered};
ghost use Rattle.lay_tree.specs.Search.{answer_lists};

use crate::answer::Answer;
use c25_image::push_decimal;
use lay_model::ScalarList;
use lay_tree::Answer as Found;
use std::alloc::Global;
use word_base::NoMemory;

// The line of the cost, without its line feed.
fn push_cost(text: &mut Vec<u8>, found: &Found) -> Result<(), NoMemory>
    ensures { OnOk result (text.new.items ≡ text.old.items ++ cost_line found.now) }
{
    text.extend_from_slice(b"cost ")?;
    match found {
        Found::Certified { cost, .. } => {
            push_decimal(text, *cost)?;
            text.extend_from_slice(b" optimal")?;
        }
        Found::Exhausted {
            cost,
            piece,
            quota,
            ..
        } => {
            push_decimal(text, *cost)?;
            text.extend_from_slice(b" best piece ")?;
            push_decimal(text, u64::from(*piece))?;
            text.extend_from_slice(b" quota ")?;
            push_decimal(text, u64::from(*quota))?;
        }
    }
    Ok(())
}

// The line of a register, without its line feed.
fn push_register(text: &mut Vec<u8>, number: usize, scalars: &[u8]) -> Result<(), NoMemory>
    ensures { OnOk result (text.new.items ≡ text.old.items ++ register_line number scalars.now) }
{
    text.extend_from_slice(b"register ")?;
    push_decimal(text, number as u64)?;
    text.push(b':')?;
    for scalar in scalars {
        text.push(b' ')?;
        push_decimal(text, u64::from(*scalar))?;
    }
    Ok(())
}

// A line for each register.
fn push_registers(text: &mut Vec<u8>, lists: &[ScalarList]) -> Result<(), NoMemory>
    ensures { OnOk result (text.new.items ≡ text.old.items ++ register_lines 0 lists.now) }
{
    for (number, list) in lists.iter().enumerate() {
        push_register(text, number, list.scalars())?;
        text.push(b'\n')?;
    }
    Ok(())
}

fn lists_of(found: &Found) -> &[ScalarList]
    ensures { result.now ≡ answer_lists found.now }
{
    match found {
        Found::Certified { arrangement, .. } | Found::Exhausted { arrangement, .. } => {
            arrangement.lists()
        }
    }
}

/// What a search for a layout answers: its cost, whether nothing costs less, and the scalars of each register in order.
pub fn layout_answer(alloc: Global, found: &Found) -> Result<Answer, NoMemory>
    ensures { IfOk result (λ a. answered a ≡ layout_answer found.now) }
{
    let mut text = Vec::new(alloc);
    push_cost(&mut text, found)?;
    text.push(b'\n')?;
    push_registers(&mut text, lists_of(found))?;
    Ok(Answer {
        text: Some(text),
        status: 0,
    })
}
