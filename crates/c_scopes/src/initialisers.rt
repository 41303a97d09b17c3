//! Initialisers: ISO 9899:1990 6.5.7, and the addresses that are known before the program runs: 6.4.
ghost use Rattle.c_rules.specs.Answers.{Follows};
ghost use Rattle.std.specs.Prelude.{◌≡◌, Some, None, map};
ghost use Rattle.c_syntax.specs.SyntaxView.{expression_of, item_form_of, initial_of};
ghost use Rattle.c_tree.specs.View.{expr_of};
ghost use Rattle.c_rules.specs.Declarations as rules;
ghost use Rattle.c_rules.specs.Statements as blocks;
ghost use Rattle.c_names.specs.Tables.{scope_of};
ghost use Rattle.c_objects.specs.InitialiserView.{entry_of, initialiser_of};

use crate::expressions::{constant_tree, expression, operand};
use c_conversions::{Operand, constant};
use c_names::Scopes;
use c_objects::{Entry, Initialiser, add, initial_word, is_null};
use c_rules::{Meaning, ObjectType, Refusal, Rule};
use c_syntax::{BinaryOp, Expr, ExprKind, Init, ItemKind, PrefixOp};
use c_tree::{ExprForm, Initial, TypedExpr, VarRef};

// The second operand of the sum that an index or a sum stands for.
fn index_in(e: &Expr, sum: &TypedExpr) -> Option<u16>
    ensures { result ≡ rules.index_in (expression_of e.now) (expr_of sum.now) }
{
    match &sum.form {
        ExprForm::Binary { right, .. } => constant(e, right),
        _ => None,
    }
}

// An array's cell of this index, with the place behind its end as the last one.
fn static_cell(scopes: &Scopes<'_>, name: &str, index: Option<u16>) -> Option<Initial>
    ensures { result ≡ rules.static_cell ((scope_of scopes.now).meaning name.now) index }
{
    let index = index?;
    match scopes.find(name) {
        Some(
            Meaning::Object {
                reference: VarRef::Static(object),
                object_type: ObjectType::Array { length, .. },
            },
        ) if index <= *length => Some(Initial::Address {
            object: *object,
            index,
        }),
        _ => None,
    }
}

// The address of a scalar.
fn static_scalar(scopes: &Scopes<'_>, name: &str) -> Option<Initial>
    ensures { result ≡ rules.static_scalar ((scope_of scopes.now).meaning name.now) }
{
    match scopes.find(name) {
        Some(
            Meaning::Object {
                reference: VarRef::Static(object),
                object_type: ObjectType::Single(_),
            },
        ) => Some(Initial::Address {
            object: *object,
            index: 0,
        }),
        _ => None,
    }
}

// The cell of this index of the array that an operand names.
fn cell_of(scopes: &Scopes<'_>, e: &Expr, index: Option<u16>) -> Option<Initial>
    ensures { result ≡ rules.named_cell (scope_of scopes.now) (expression_of e.now) index }
{
    match &e.kind {
        ExprKind::Name(name) => static_cell(scopes, name.as_str(), index),
        _ => None,
    }
}

// The address of an operand that is typed as this.
fn address_of(scopes: &Scopes<'_>, e: &Expr, x: &TypedExpr) -> Option<Initial>
    ensures { result ≡ rules.address_of (scope_of scopes.now) (expression_of e.now) (expr_of x.now) }
{
    match &e.kind {
        ExprKind::Name(name) => static_scalar(scopes, name.as_str()),
        ExprKind::Index { operand, index } => cell_of(scopes, operand, index_in(index, x)),
        _ => None,
    }
}

// An address that is known before the program runs: an array's name, `&name`, `name + c` and `&name[c]`.
fn static_address(scopes: &Scopes<'_>, e: &Expr, x: &TypedExpr) -> Option<Initial>
    ensures { result ≡ rules.static_address (scope_of scopes.now) (expression_of e.now) (expr_of x.now) }
{
    match &e.kind {
        ExprKind::Name(name) => static_cell(scopes, name.as_str(), Some(0)),
        ExprKind::Binary {
            op: BinaryOp::Add,
            left,
            right,
        } => cell_of(scopes, left, index_in(right, x)),
        ExprKind::Prefix {
            op: PrefixOp::Address,
            operand,
        } => address_of(scopes, operand, x),
        _ => None,
    }
}

/// What a static initialiser stands for, where it is one, that is typed as this.
pub(crate) fn static_value(scopes: &Scopes<'_>, e: &Expr, x: &TypedExpr) -> Option<Initial>
    ensures { result ≡ rules.static_value (scope_of scopes.now) (expression_of e.now) (expr_of x.now) }
{
    match constant(e, x) {
        Some(word) => Some(initial_word(x.kind, word)),
        None => static_address(scopes, e, x),
    }
}

/// A static initialiser.
pub(crate) fn entry(scopes: &Scopes<'_>, e: &Expr) -> Result<Entry, Refusal>
    ensures { Follows entry_of (rules.entry (scope_of scopes.now) (expression_of e.now)) result }
{
    let value = constant_tree(scopes, e)?;
    let Some(initial) = static_value(scopes, e, &value) else {
        drop(value);
        return Err(Refusal::Broken {
            rule: Rule::NotConstant,
            at: e.at,
        });
    };
    let null = is_null(e);
    Ok(Entry {
        operand: Operand { value, null },
        initial,
    })
}

/// Static initialisers, in order.
pub(crate) fn entries(scopes: &Scopes<'_>, list: &[Expr]) -> Result<Vec<Entry>, Refusal>
    ensures { Follows (λ xs. map entry_of xs.items) (rules.entries (scope_of scopes.now) (map expression_of list.now)) result }
{
    let mut entries = Vec::new(scopes.alloc);
    for e in list {
        add(&mut entries, entry(scopes, e)?)?;
    }
    Ok(entries)
}

// Types the values in braces of what is no array.
fn all_typed(scopes: &Scopes<'_>, list: &[Expr]) -> Result<(), Refusal>
    ensures { Follows (λ _. blocks.Misbraced) (blocks.all_typed (scope_of scopes.now) (map expression_of list.now)) result }
{
    for e in list {
        drop(expression(scopes, e)?);
    }
    Ok(())
}

/// The initialiser of an object of a block. The list of an array is known before the program runs.
pub fn initialiser(
    scopes: &Scopes<'_>,
    kind: &ItemKind,
    init: &Option<Init>,
) -> Result<Initialiser, Refusal>
    ensures { Follows initialiser_of (blocks.initialiser (scope_of scopes.now) (blocks.is_array (item_form_of kind.now)) (initial_of init.now)) result }
{
    match (init, kind) {
        (None, _) => Ok(Initialiser::Absent),
        (Some(Init::One(e)), _) => {
            let value = operand(scopes, e)?;
            Ok(Initialiser::Value(value))
        }
        (Some(Init::Braced { values, .. }), ItemKind::Array(_)) => {
            let entries = entries(scopes, values.as_slice())?;
            Ok(Initialiser::Listed(entries))
        }
        (Some(Init::Braced { values, .. }), _) => {
            all_typed(scopes, values.as_slice())?;
            Ok(Initialiser::Misbraced)
        }
    }
}
