//! The labels of a switch: ISO 9899:1990 6.6.4.2.
ghost use Rattle.c_rules.specs.Answers.{Follows};
ghost use Rattle.std.specs.Prelude.{◌≡◌, IfOk, IfErr};
ghost use Rattle.c_tree.specs.View.{choice_list, expr_of, stmt_of};
ghost use Rattle.c_rules.specs.declared.fault.Refusal.TheVariants as refusals;
ghost use Rattle.c_types.specs.Bodies.{labelled_of, switched};
ghost use Rattle.c_rules.specs.Statements as rules;

use c_conversions::class_of;
use c_rules::{Class, Refusal, Rule, mismatch};
use c_tree::{Choice, TypedExpr, TypedStmt};
use indexmap::IndexSet;
use std::alloc::Global;

/// What was read between the braces of a switch.
#[derive(Drop)]
pub(crate) struct Labelled {
    pub(crate) choices: Vec<Choice>,
    /// Whether a label is a pointer.
    pub(crate) pointer: bool,
}

/// A switch of a value, with what stands between its braces at this place.
pub(crate) fn switched(
    alloc: Global,
    place: u32,
    at: u32,
    value: Box<TypedExpr>,
    labelled: Labelled,
) -> Result<TypedStmt, Refusal>
    ensures { Follows stmt_of (switched place at (expr_of value.value) (labelled_of labelled)) result }
{
    if repeats_label(alloc, &labelled.choices)? {
        return Err(Refusal::Broken {
            rule: Rule::Redeclared,
            at: place,
        });
    }
    if labelled.pointer {
        return Err(mismatch(place));
    }
    match class_of(value.kind) {
        Class::Integer => Ok(TypedStmt::Switch {
            value: Box::into_inner(value),
            choices: labelled.choices,
        }),
        Class::Nothing | Class::Pointer => Err(mismatch(at)),
    }
}

// Whether a case stands again further on, or a second default.
fn repeats_label(alloc: Global, choices: &[Choice]) -> Result<bool, Refusal>
    ensures repeats { IfOk result (λ b. b ≡ rules.repeats_label (choice_list choices.now)) }
    ensures memory { IfErr result (λ f. f ≡ refusals.NoMemory) }
{
    let mut cases = IndexSet::new(alloc);
    let mut has_default = false;
    for choice in choices {
        match choice {
            Choice::Case(word) => {
                if !cases.insert(*word)? {
                    return Ok(true);
                }
            }
            Choice::Default => {
                if has_default {
                    return Ok(true);
                }
                has_default = true;
            }
            Choice::Body(_) => {}
        }
    }
    Ok(false)
}
