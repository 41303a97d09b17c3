//! Whether two declarations of a name agree: ISO 9899:1990 6.1.2.6.
ghost use Rattle.std.specs.Prelude.{◌≡◌, ◌&&◌, length, option_copied};
ghost use Rattle.c_rules.specs.Units as rules;
ghost use Rattle.c_rules.specs.declared.meaning.Declared.TheVariants as declares;

use c_conversions::{same_kind, same_type};
use c_rules::{FunctionType, Meaning, ObjectType};
use c_tree::ScalarType;

fn same_object(a: ObjectType, b: ObjectType) -> bool
    ensures { result ≡ rules.same_object a b }
{
    match (a, b) {
        (ObjectType::Single(a), ObjectType::Single(b)) => same_type(a, b),
        (
            ObjectType::Array {
                kind: a,
                length: first,
            },
            ObjectType::Array {
                kind: b,
                length: second,
            },
        ) => same_type(a, b) && first == second,
        _ => false,
    }
}

fn same_result(a: Option<ScalarType>, b: Option<ScalarType>) -> bool
    ensures { result ≡ rules.same_result a b }
{
    match (a, b) {
        (None, None) => true,
        _ => same_kind(a, b),
    }
}

fn same_types(a: &[ScalarType], b: &[ScalarType]) -> bool
    ensures { result ≡ rules.same_types a.now b.now }
{
    if a.len() != b.len() {
        return false;
    }
    for (n, kind) in a.iter().enumerate() {
        if !same_type(*kind, b[n]) {
            return false;
        }
    }
    true
}

fn same_function(a: &FunctionType, b: &FunctionType) -> bool
    ensures { result ≡ rules.same_function a.now b.now }
{
    same_result(a.result, b.result) && same_types(a.parameters.as_slice(), b.parameters.as_slice())
}

/// Whether a name that stands for this may be declared as such an object.
pub fn agrees_object(meaning: Option<&Meaning>, other: ObjectType) -> bool
    ensures { result ≡ rules.agrees (option_copied meaning.entry) (declares.Object other) }
{
    match meaning {
        None => true,
        Some(Meaning::Object { object_type, .. }) => same_object(*object_type, other),
        Some(Meaning::Function(_)) => false,
    }
}

/// Whether a name that stands for this may be declared as such a function.
pub fn agrees_function(meaning: Option<&Meaning>, other: &FunctionType) -> bool
    ensures { result ≡ rules.agrees (option_copied meaning.entry) (declares.Function other.now) }
{
    match meaning {
        None => true,
        Some(Meaning::Function(function)) => same_function(function, other),
        Some(Meaning::Object { .. }) => false,
    }
}
