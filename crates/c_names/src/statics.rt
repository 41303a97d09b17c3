//! Objects of file scope: ISO 9899:1990 6.7.2.
ghost use Rattle.std.specs.Prelude.{◌≡◌, ◌&&◌, is_some, map};
ghost use Rattle.c_syntax.specs.SyntaxView.{item_of};
ghost use Rattle.c_rules.specs.Units as rules;
ghost use Rattle.c_names.specs.Tables.{scope_of};
ghost use Rattle.c_names.specs.Statics.{static_tree_of};

use crate::scopes::Scopes;
use c_rules::{Meaning, ObjectType};
use c_syntax::Item;
use c_tree::{Initial, VarRef};
use word_base::{Items, Text};

/// An object of file scope.
#[derive(Drop)]
pub struct Static {
    pub name: Text,
    pub object_type: ObjectType,
    /// Its list, where it is initialised.
    pub initial: Option<Items<Initial>>,
}

/// The number of the object of file scope that a name stands for.
pub fn static_number(scopes: &Scopes<'_>, name: &str) -> Option<u32>
    ensures { result ≡ rules.static_number ((scope_of scopes.now).meaning name.now) }
{
    match scopes.find(name)? {
        Meaning::Object {
            reference: VarRef::Static(number),
            ..
        } => Some(*number),
        _ => None,
    }
}

/// Whether an item initialises an object that is initialised already.
pub fn is_initialised_twice(scopes: &Scopes<'_>, statics: &[Static], item: &Item) -> bool
    ensures { result ≡ (is_some (item_of item.now).initial && rules.is_initialised (map static_tree_of statics.now) (rules.static_number ((scope_of scopes.now).meaning (item_of item.now).name))) }
{
    if item.init.is_none() {
        return false;
    }
    match static_number(scopes, item.name.as_str()) {
        Some(number) => match statics.get(number as usize) {
            Some(object) => object.initial.is_some(),
            None => false,
        },
        None => false,
    }
}
