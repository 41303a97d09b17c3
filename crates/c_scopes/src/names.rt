//! Names in expressions, and calls by them: ISO 9899:1990 6.3.1 and 6.3.2.2.
ghost use Rattle.c_rules.specs.Answers.{Follows};
ghost use Rattle.std.specs.Prelude.{◌≡◌, map, Some};
ghost use Rattle.c_tree.specs.View.{expr_of};
ghost use Rattle.c_rules.specs.declared.fault.Refusal.TheVariants as refusals;
ghost use Rattle.c_rules.specs.declared.fault.Rule.TheVariants as rule;
ghost use Rattle.c_rules.specs.declared.meaning.Meaning.TheVariants as meanings;
ghost use Rattle.c_names.specs.Tables.{scope_of};
ghost use Rattle.c_rules.specs.Typing as rules;
ghost use Rattle.c_conversions.specs.OperandView.{operand_of};

use c_conversions::{Operand, pointer_to};
use c_names::{Scopes, is_in, is_out};
use c_operands::passed;
use c_rules::{FunctionType, Meaning, ObjectType, Refusal, Rule, mismatch};
use c_tree::{ExprForm, TypedExpr, VarRef};
use std::alloc::Global;

/// A name. An array is a pointer to its first cell, and a function isn't named but in calls.
pub(crate) fn named(scopes: &Scopes<'_>, name: &str, at: u32) -> Result<TypedExpr, Refusal>
    ensures { Follows expr_of (rules.typed_name (scope_of scopes.now) name.now at) result }
{
    if is_in(name) || is_out(name) {
        return Err(mismatch(at));
    }
    match scopes.find(name) {
        None => Err(undeclared(at)),
        Some(
            Meaning::Object {
                reference,
                object_type,
            },
        ) => object(*reference, *object_type, at),
        Some(Meaning::Function(_)) => Err(mismatch(at)),
    }
}

/// A call by a name.
pub(crate) fn called(
    scopes: &Scopes<'_>,
    name: &str,
    at: u32,
    operands: Vec<Operand>,
) -> Result<TypedExpr, Refusal>
    ensures { Follows expr_of (rules.typed_call (rules.bodies_before (scope_of scopes.now) name.now) ((scope_of scopes.now).meaning name.now) at (map operand_of operands.items)) result }
{
    match scopes.find(name) {
        None => Err(undeclared(at)),
        Some(Meaning::Object { .. }) => Err(mismatch(at)),
        Some(Meaning::Function(function)) => {
            let number = scopes.number_of(name);
            function_call(scopes.alloc, function, number, at, operands)
        }
    }
}

// The object of a name.
fn object(reference: VarRef, object_type: ObjectType, at: u32) -> Result<TypedExpr, Refusal>
    ensures { Follows expr_of (rules.named_as at (Some (meanings.Object reference object_type))) result }
{
    let (form, kind) = match object_type {
        ObjectType::Single(kind) => (ExprForm::Read(reference), kind),
        // No source that the parser gives has more stars than can be counted.
        ObjectType::Array { kind, .. } => {
            let pointer = pointer_to(kind).ok_or(Refusal::NoMemory)?;
            (ExprForm::AddressOf(reference), pointer)
        }
    };
    Ok(TypedExpr {
        form,
        kind: Some(kind),
        at,
    })
}

// A call of the function of this number.
fn function_call(
    alloc: Global,
    function: &FunctionType,
    number: usize,
    at: u32,
    operands: Vec<Operand>,
) -> Result<TypedExpr, Refusal>
    ensures { Follows expr_of (rules.typed_call number (Some (meanings.Function function.now)) at (map operand_of operands.items)) result }
{
    let args = passed(alloc, function.parameters.as_slice(), at, operands)?;
    // No source that the parser gives has more functions than 16 bits number.
    let Ok(function_number) = u16::try_from(number) else {
        return Err(Refusal::NoMemory);
    };
    Ok(TypedExpr {
        form: ExprForm::Call {
            function: function_number,
            args,
        },
        kind: function.result,
        at,
    })
}

fn undeclared(at: u32) -> Refusal
    ensures { result ≡ refusals.Broken rule.Undeclared at }
{
    Refusal::Broken {
        rule: Rule::Undeclared,
        at,
    }
}
