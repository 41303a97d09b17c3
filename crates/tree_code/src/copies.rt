//! Copies of objects.
ghost use Rattle.std.specs.Prelude.{◌≡◌, map, IfOk};
ghost use Rattle.std.specs.List.{AllByRecursion};
ghost use Rattle.c_tree.specs.View.{object_of};
ghost use Rattle.c_tree.specs.TypedOfWords.{StartsWithWord, StartsWithWords};

use c_tree::{Initial, Object, VarRef};
use std::alloc::Global;
use word_base::{Items, NoMemory, Text};

/// A copy of a name.
pub(crate) fn copied_name(alloc: Global, name: &Text) -> Result<Text, NoMemory>
    ensures { IfOk result (λ copy. copy ≡ name.now) }
{
    Text::copy_of(alloc, name.as_str())
}

/// A copy of a list of names.
pub(crate) fn copied_references(alloc: Global, list: &[VarRef]) -> Result<Items<VarRef>, NoMemory>
    ensures { IfOk result (λ copy. copy ≡ list.now) }
{
    Ok(Items::new(list.to_vec(alloc)?))
}

fn initial(x: &Initial) -> Initial
    ensures copy { result ≡ x.now }
    ensures words { StartsWithWord x.now }
{
    match x {
        Initial::Word(word) => Initial::Word(*word),
        Initial::Address { object, index } => Initial::Address {
            object: *object,
            index: *index,
        },
        Initial::Null => Initial::Null,
    }
}

fn copied_initial(alloc: Global, list: &[Initial]) -> Result<Items<Initial>, NoMemory>
    ensures tree { IfOk result (λ copy. copy ≡ list.now) }
    ensures words { IfOk result (λ _. AllByRecursion StartsWithWord list.now) }
{
    let mut copy = Vec::new(alloc);
    for x in list {
        copy.push(initial(x))?;
    }
    Ok(Items::new(copy))
}

fn object(alloc: Global, o: &Object) -> Result<Object, NoMemory>
    ensures tree { IfOk result (λ copy. object_of copy ≡ object_of o.now) }
    ensures words { IfOk result (λ _. AllByRecursion StartsWithWord o.now.initial) }
{
    Ok(Object {
        name: copied_name(alloc, &o.name)?,
        length: o.length,
        kind: o.kind,
        initial: copied_initial(alloc, o.initial.as_slice())?,
    })
}

/// Copies of objects.
pub(crate) fn copied_objects(alloc: Global, list: &[Object]) -> Result<Items<Object>, NoMemory>
    ensures tree { IfOk result (λ copies. map object_of copies ≡ map object_of list.now) }
    ensures words { IfOk result (λ _. StartsWithWords (map object_of list.now)) }
{
    let mut copies = Vec::new(alloc);
    for o in list {
        copies.push(object(alloc, o)?)?;
    }
    Ok(Items::new(copies))
}
