//! Declarators and parameters: ISO 9899:1990 6.5.4 and 6.7.1.
ghost use Rattle.c_rules.specs.Answers.{Follows};
ghost use Rattle.std.specs.Prelude.{◌≡◌, IfErr, OnOk, map};
ghost use Rattle.c_syntax.specs.SyntaxView.{expression_of, array_of, parameter_of, parameters_of, item_form_of, initial_of};
ghost use Rattle.c_rules.specs.declared.fault.Refusal.TheVariants as refusals;
ghost use Rattle.c_rules.specs.Declarations as rules;
ghost use Rattle.c_rules.specs.Statements.{with_named_object};
ghost use Rattle.c_names.specs.Tables.{scope_of, scopes_of, around_of};

use crate::call_arguments::word_of;
use crate::expressions::constant_tree;
use c_conversions::starred;
use c_names::Scopes;
use c_objects::{
    array, lacks_name, length_within, listed_length, parameter_kind, plain, redeclared, single,
};
use c_rules::{Declared, FunctionType, Meaning, Naming, ObjectType, Refusal, mismatch};
use c_syntax::{Brackets, Expr, Item, ItemKind, Param, Params};
use c_tree::{Base, ScalarType, VarRef};
use word_base::{Items, Text};

/// A constant length, where it may be one.
pub(crate) fn length(scopes: &Scopes<'_>, e: &Expr) -> Result<Option<u16>, Refusal>
    ensures { Follows (λ n. n) (rules.typed_length (scope_of scopes.now) (expression_of e.now)) result }
{
    let value = constant_tree(scopes, e)?;
    let word = word_of(e, value)?;
    Ok(length_within(word))
}

// Whether the length of a parameter that is an array can't be one.
fn is_bad_length(scopes: &Scopes<'_>, array: &Option<Brackets>) -> Result<bool, Refusal>
    ensures { Follows (λ bad. bad) (rules.is_bad_length (scope_of scopes.now) (array_of array.now)) result }
{
    match array {
        Some(Brackets::Sized(e)) => {
            let length = length(scopes, e)?;
            Ok(length.is_none())
        }
        Some(Brackets::Unsized) | None => Ok(false),
    }
}

fn is_name_taken(scopes: &Scopes<'_>, name: &Option<Text>) -> bool
    ensures { result ≡ rules.is_name_taken (scope_of scopes.now) name.now }
{
    match name {
        Some(name) => scopes.is_taken(name.as_str()),
        None => false,
    }
}

// The type of a parameter, whose length is only looked at.
fn parameter_type(
    scopes: &Scopes<'_>,
    naming: Naming,
    parameter: &Param,
) -> Result<ScalarType, Refusal>
    ensures { Follows (λ kind. kind) (rules.parameter (scope_of scopes.now) naming (parameter_of parameter.now)) result }
{
    let base = plain(&parameter.specs)?;
    let is_bad = is_bad_length(scopes, &parameter.array)?;
    let at = parameter.specs.at;
    if is_name_taken(scopes, &parameter.name) {
        return Err(redeclared(at));
    }
    if is_bad || lacks_name(naming, &parameter.name) {
        return Err(mismatch(at));
    }
    let kind = parameter_kind(base, parameter)?;
    kind.ok_or(mismatch(at))
}

/// Declares an object of one cell, where it has a name.
pub(crate) fn declare_single<'a>(
    scopes: &mut Scopes<'a>,
    name: &'a Option<Text>,
    reference: VarRef,
    kind: ScalarType,
) -> Result<(), Refusal>
    ensures declared { OnOk result (scope_of scopes.new ≡ rules.with_single (scope_of scopes.old) name.now reference kind) }
    ensures around { around_of scopes.new ≡ around_of scopes.old }
    ensures memory { IfErr result (λ f. f ≡ refusals.NoMemory) }
{
    match name {
        Some(name) => scopes.declare(
            name.as_str(),
            Meaning::Object {
                reference,
                object_type: ObjectType::Single(kind),
            },
        ),
        None => Ok(()),
    }
}

/// The types of parameters, whose names are declared in the innermost scope.
pub(crate) fn parameter_types<'a>(
    scopes: &mut Scopes<'a>,
    naming: Naming,
    list: &'a [Param],
) -> Result<Vec<ScalarType>, Refusal>
    ensures follows { Follows (λ kinds. kinds.items) (rules.parameters (scope_of scopes.old) naming (map parameter_of list.now)) result }
    ensures around { around_of scopes.new ≡ around_of scopes.old }
{
    let mut kinds = Vec::new(scopes.alloc);
    for parameter in list {
        let kind = parameter_type(scopes, naming, parameter)?;
        // Here the name is only taken: what it stands for is known with a body.
        declare_single(scopes, &parameter.name, VarRef::Local(0), kind)?;
        kinds.push(kind)?;
    }
    Ok(kinds)
}

// A function with a result of this type, whose parameters have a scope of their own.
fn prototype<'a>(
    scopes: &mut Scopes<'a>,
    result_kind: Option<ScalarType>,
    parameters: &'a Params,
) -> Result<Declared, Refusal>
    ensures follows { Follows (λ d. d) (rules.prototype (scope_of scopes.old) result_kind (parameters_of parameters.now)) result }
    ensures kept { OnOk result (scopes_of scopes.new ≡ scopes_of scopes.old) }
{
    scopes.open()?;
    let kinds = parameter_types(scopes, Naming::Free, parameters.list.as_slice())?;
    scopes.close();
    Ok(Declared::Function(FunctionType {
        result: result_kind,
        parameters: Items::new(kinds),
    }))
}

/// What an item of a declaration declares.
pub fn declarator<'a>(
    scopes: &mut Scopes<'a>,
    base: Base,
    item: &'a Item,
) -> Result<Declared, Refusal>
    ensures follows { Follows (λ d. d) (rules.declarator (scope_of scopes.old) base (item_form_of item.now.kind) item.now.stars (initial_of item.now.init)) result }
    ensures kept { OnOk result (scopes_of scopes.new ≡ scopes_of scopes.old) }
{
    let kind = starred(base, item.stars);
    match &item.kind {
        ItemKind::Plain => Ok(single(kind)),
        ItemKind::Array(Brackets::Unsized) => Ok(array(kind, listed_length(&item.init))),
        ItemKind::Array(Brackets::Sized(e)) => {
            let length = length(scopes, e)?;
            Ok(array(kind, length))
        }
        ItemKind::Function(parameters) => prototype(scopes, kind, parameters),
    }
}

/// Declares an object, whose own initialiser sees it. What can't be declared isn't seen.
pub fn declare_object<'a>(
    scopes: &mut Scopes<'a>,
    name: &'a str,
    reference: VarRef,
    declared: &Declared,
) -> Result<(), Refusal>
    ensures declared { OnOk result (scope_of scopes.new ≡ with_named_object (scope_of scopes.old) name.now reference declared.now) }
    ensures around { around_of scopes.new ≡ around_of scopes.old }
    ensures memory { IfErr result (λ f. f ≡ refusals.NoMemory) }
{
    match declared {
        Declared::Object(object_type) if !scopes.is_taken(name) => scopes.declare(
            name,
            Meaning::Object {
                reference,
                object_type: *object_type,
            },
        ),
        _ => Ok(()),
    }
}
