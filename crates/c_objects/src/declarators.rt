//! What declarators make of types and lengths: ISO 9899:1990 6.5.4 and 6.7.1.
ghost use Rattle.std.specs.Prelude.{◌≡◌, IfOk, IfErr};
ghost use Rattle.c_syntax.specs.SyntaxView.{parameter_of, initial_of};
ghost use Rattle.c_rules.specs.declared.fault.Refusal.TheVariants as refusals;
ghost use Rattle.c_rules.specs.declared.fault.Rule.TheVariants as rule;
ghost use Rattle.c_rules.specs.Declarations as rules;

use c_conversions::{pointer_to, starred};
use c_rules::{Declared, Naming, ObjectType, Refusal, Rule};
use c_syntax::{Init, Param};
use c_tree::{Base, MOST_CELLS, ScalarType};
use word_base::Text;

/// A length of 1 to 32,767.
pub fn length_within(word: u16) -> Option<u16>
    ensures { result ≡ rules.length_within word }
{
    if word == 0 || word > MOST_CELLS {
        None
    } else {
        Some(word)
    }
}

/// The length that the values in braces give an array, where none is written: 6.5.7.
pub fn listed_length(init: &Option<Init>) -> Option<u16>
    ensures { result ≡ rules.listed_length (initial_of init.now) }
{
    match init {
        Some(Init::Braced { values, .. }) => {
            let count = u16::try_from(values.as_slice().len()).ok()?;
            length_within(count)
        }
        Some(Init::One(_)) | None => None,
    }
}

/// The type of a parameter; an array is a pointer: 6.7.1.
pub fn parameter_kind(base: Base, parameter: &Param) -> Result<Option<ScalarType>, Refusal>
    ensures typed { IfOk result (λ kind. kind ≡ rules.parameter_kind base (parameter_of parameter.now)) }
    ensures memory { IfErr result (λ f. f ≡ refusals.NoMemory) }
{
    let kind = starred(base, parameter.stars);
    match (&parameter.array, kind) {
        // No source that the parser gives has more stars than can be counted.
        (Some(_), Some(kind)) => Ok(Some(pointer_to(kind).ok_or(Refusal::NoMemory)?)),
        _ => Ok(kind),
    }
}

/// Whether a parameter has no name, and has to have one.
pub fn lacks_name(naming: Naming, name: &Option<Text>) -> bool
    ensures { result ≡ rules.lacks_name naming name.now }
{
    match naming {
        Naming::Free => false,
        Naming::Needed => name.is_none(),
    }
}

/// What a declarator of an object of one cell declares.
pub fn single(kind: Option<ScalarType>) -> Declared
    ensures { result ≡ rules.single kind }
{
    match kind {
        Some(kind) => Declared::Object(ObjectType::Single(kind)),
        None => Declared::Untyped,
    }
}

/// What a declarator of an array declares.
pub fn array(kind: Option<ScalarType>, length: Option<u16>) -> Declared
    ensures { result ≡ rules.array kind length }
{
    match (kind, length) {
        (Some(kind), Some(length)) => Declared::Object(ObjectType::Array { kind, length }),
        _ => Declared::Untyped,
    }
}

/// A name that is declared twice in a scope, at the node of this place.
pub fn redeclared(at: u32) -> Refusal
    ensures { result ≡ refusals.Broken rule.Redeclared at }
{
    Refusal::Broken {
        rule: Rule::Redeclared,
        at,
    }
}
