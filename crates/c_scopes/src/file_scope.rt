//! The names of file scope, and what gives its objects their values: ISO 9899:1990 6.7.
ghost use Rattle.c_rules.specs.Answers.{Follows};
ghost use Rattle.std.specs.Prelude.{◌≡◌, ◌&&◌, ◌||◌, map, IfOk, IfErr, OnOk};
ghost use Rattle.c_tree.specs.declared.program.VarRef.{VarRef};
ghost use Rattle.c_syntax.specs.SyntaxView.{initial_of, parameter_of};
ghost use Rattle.c_names.specs.Tables.{scope_of, scopes_of, around_of};
ghost use Rattle.c_rules.specs.Units as rules;
ghost use Rattle.c_objects.specs.InitialiserView.{starts_of};
ghost use Rattle.c_rules.specs.declared.meaning.Declared.TheVariants as declares;
ghost use Rattle.c_rules.specs.declared.fault.Refusal.TheVariants as refusals;
ghost use Rattle.c_rules.specs.declared.local.Naming.TheVariants.{Needed};
ghost use Rattle.c_rules.specs.Declarations.{parameters};
ghost use Rattle.c_rules.specs.Scopes as scope_names;
ghost use Rattle.c_rules.specs.Scopes.{open_scope};

use crate::declarations::{declare_single, parameter_types};
use crate::initialisers::{entries, entry};
use c_names::{Scopes, is_in, is_out};
use c_objects::{Starts, agrees_function, agrees_object, redeclared};
use c_rules::{FunctionType, Meaning, Naming, ObjectType, Refusal, mismatch};
use c_syntax::{Init, Item, Param};
use c_tree::{ScalarType, VarRef};

fn is_port(name: &str) -> bool
    ensures { result ≡ (scope_names.is_in name.now || scope_names.is_out name.now) }
{
    is_in(name) || is_out(name)
}

/// Declares an object of file scope, where it may be and isn't yet. Gives whether it may be.
pub fn declare_static<'a>(
    scopes: &mut Scopes<'a>,
    name: &'a str,
    number: usize,
    object_type: ObjectType,
) -> Result<bool, Refusal>
    ensures allowed { IfOk result (λ b. b ≡ rules.may_declare (scope_of scopes.old) name.now (declares.Object object_type)) }
    ensures declared { OnOk result (scope_of scopes.new ≡ rules.with_declared (scope_of scopes.old) name.now number (declares.Object object_type)) }
    ensures around { around_of scopes.new ≡ around_of scopes.old }
    ensures memory { IfErr result (λ f. f ≡ refusals.NoMemory) }
{
    let allowed = !is_port(name) && agrees_object(scopes.find(name), object_type);
    if allowed && scopes.find(name).is_none() {
        let reference = VarRef::Static(u32::try_from(number).map_err(|_| Refusal::NoMemory)?);
        scopes.declare(
            name,
            Meaning::Object {
                reference,
                object_type,
            },
        )?;
    }
    Ok(allowed)
}

/// Declares a function, where it may be and isn't yet. Gives whether it may be.
pub fn declare_function<'a>(
    scopes: &mut Scopes<'a>,
    name: &'a str,
    function: FunctionType,
) -> Result<bool, Refusal>
    ensures allowed { IfOk result (λ b. b ≡ rules.may_declare (scope_of scopes.old) name.now (declares.Function function)) }
    ensures declared { OnOk result (scope_of scopes.new ≡ rules.with_declared (scope_of scopes.old) name.now 0 (declares.Function function)) }
    ensures around { around_of scopes.new ≡ around_of scopes.old }
    ensures memory { IfErr result (λ f. f ≡ refusals.NoMemory) }
{
    let allowed = !is_port(name) && agrees_function(scopes.find(name), &function);
    if allowed && scopes.find(name).is_none() {
        scopes.declare(name, Meaning::Function(function))?;
    }
    Ok(allowed)
}

/// Declares the parameters of a function in the scope of its body.
pub fn declare_parameters<'a>(
    scopes: &mut Scopes<'a>,
    list: &'a [Param],
    kinds: &[ScalarType],
) -> Result<(), Refusal>
    ensures declared { OnOk result (scope_of scopes.new ≡ rules.with_parameters (scope_of scopes.old) 0 (map parameter_of list.now) kinds.now) }
    ensures around { around_of scopes.new ≡ around_of scopes.old }
    ensures memory { IfErr result (λ f. f ≡ refusals.NoMemory) }
{
    for (n, kind) in kinds.iter().enumerate() {
        let number = u32::try_from(n).map_err(|_| Refusal::NoMemory)?;
        if let Some(parameter) = list.get(n) {
            declare_single(scopes, &parameter.name, VarRef::Local(number), *kind)?;
        }
    }
    Ok(())
}

/// The types of the parameters of a function with a body, in a scope of their own.
pub fn defined_parameters<'a>(
    scopes: &mut Scopes<'a>,
    list: &'a [Param],
) -> Result<Vec<ScalarType>, Refusal>
    ensures follows { Follows (λ kinds. kinds.items) (parameters (open_scope (scope_of scopes.old)) Needed (map parameter_of list.now)) result }
    ensures kept { OnOk result (scopes_of scopes.new ≡ scopes_of scopes.old) }
{
    scopes.open()?;
    let kinds = parameter_types(scopes, Naming::Needed, list)?;
    scopes.close();
    Ok(kinds)
}

/// The rule that an item without a valid type breaks, whose initialiser breaks none.
pub fn without_type(scopes: &Scopes<'_>, item: &Item) -> Refusal
    ensures { result ≡ refusals.Broken (rules.untyped_rule (scope_of scopes.now) item.now.name) item.now.at }
{
    let name = item.name.as_str();
    if is_port(name) || scopes.find(name).is_some() {
        redeclared(item.at)
    } else {
        mismatch(item.at)
    }
}

/// The initialiser of an object of file scope, where it has one.
pub fn starts(scopes: &Scopes<'_>, initial: &Option<Init>) -> Result<Starts, Refusal>
    ensures { Follows starts_of (rules.starts (scope_of scopes.now) (initial_of initial.now)) result }
{
    match initial {
        None => Ok(Starts::Absent),
        Some(Init::One(value)) => Ok(Starts::One(entry(scopes, value)?)),
        Some(Init::Braced { values, .. }) => {
            Ok(Starts::Braced(entries(scopes, values.as_slice())?))
        }
    }
}
