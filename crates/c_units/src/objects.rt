//! The objects that files declare.
ghost use Rattle.std.specs.Prelude.{◌≡◌, ◌≢◌, ◌||◌, ◌≤◌, ◌++◌, ◌∷◌, [], Some, None, List, ℕ, option_map, length, map, All, IfOk, OnOk, IfErr, nat_eq};
ghost use Rattle.std.specs.HashSet.{contains};
ghost use Rattle.c_tree.specs.c_syntax.SyntaxView.{unit_of, item_of, external_of};
ghost use Rattle.c_units.specs.declared.fault.UnitFault.TheVariants as faults;
ghost use Rattle.c_units.specs.Joining.{undefined_fault};
ghost use Rattle.c_units.specs.Objects.{is_place_among, objects_of, objects_in, file_objects, all_objects, undefined_name};
ghost use Rattle.c_units.specs.Objects as definitions;
ghost use Rattle.c_units.specs.Views.{tree_of, object_of, AreNames, ArePlaces, HasTable, has_name};

use crate::fault::UnitFault;
use crate::names::Names;
use crate::statics::static_name;
use crate::tables::NamedFile;
use c_syntax::{External, Item, ItemKind};
use indexmap::IndexSet;
use std::alloc::Global;
use word_base::{NoMemory, Text};

/// A declaration of an object.
#[derive(Drop)]
pub(crate) struct DeclaredObject<'a> {
    /// Its name as its file spells it.
    pub(crate) name: &'a str,
    /// Its name in the joined text.
    pub(crate) joined: Text,
    /// Whether it is without `extern` or with an initialiser.
    pub(crate) defines: bool,
}

/// A file whose objects are read: its number, its statics, and the places of its declarations with `extern`, in bytes.
#[derive(Drop)]
pub(crate) struct Declaring<'a> {
    pub(crate) number: u8,
    pub(crate) statics: &'a Names<'a>,
    pub(crate) externs: IndexSet<u32>,
}

// Each of these places once.
fn places_of(alloc: Global, places: &[u32]) -> Result<IndexSet<u32>, NoMemory>
    ensures { IfOk result (λ found. ArePlaces found places.now) }
{
    let mut found = IndexSet::new(alloc);
    for place in places {
        found.insert(*place)?;
    }
    Ok(found)
}

// The name in the joined text of one that a file has.
fn joined_name(alloc: Global, file: &Declaring<'_>, name: &str) -> Result<Text, NoMemory>
    ensures { IfOk result (λ text. (list : List (List ℕ)) → AreNames file.now.statics.now list
        → text ≡ definitions.joined_name file.now.number list name.now) }
{
    if file.statics.contains(name) {
        static_name(alloc, file.number, name)
    } else {
        Text::copy_of(alloc, name)
    }
}

// Adds the object that an item is, where it is no function.
fn push_item<'a>(
    alloc: Global,
    file: &Declaring<'_>,
    is_extern: bool,
    item: &'a Item,
    objects: &mut Vec<DeclaredObject<'a>>,
) -> Result<(), NoMemory>
    ensures { OnOk result ((list : List (List ℕ)) → AreNames file.now.statics.now list
        → map object_of objects.new.items ≡ map object_of objects.old.items ++ objects_of file.now.number list is_extern (item_of item.now ∷ [])) }
{
    if let ItemKind::Function(_) = item.kind {
        return Ok(());
    }
    let name = item.name.as_str();
    objects.push(DeclaredObject {
        name,
        joined: joined_name(alloc, file, name)?,
        defines: !is_extern || item.init.is_some(),
    })?;
    Ok(())
}

fn push_items<'a>(
    alloc: Global,
    file: &Declaring<'_>,
    is_extern: bool,
    items: &'a [Item],
    objects: &mut Vec<DeclaredObject<'a>>,
) -> Result<(), NoMemory>
    ensures { OnOk result ((list : List (List ℕ)) → AreNames file.now.statics.now list
        → map object_of objects.new.items ≡ map object_of objects.old.items ++ objects_of file.now.number list is_extern (map item_of items.now)) }
{
    for item in items {
        push_item(alloc, file, is_extern, item, objects)?;
    }
    Ok(())
}

fn push_external<'a>(
    alloc: Global,
    file: &Declaring<'_>,
    external: &'a External,
    objects: &mut Vec<DeclaredObject<'a>>,
) -> Result<(), NoMemory>
    ensures { OnOk result ((list : List (List ℕ)) (places : List ℕ) → AreNames file.now.statics.now list → ArePlaces file.now.externs places
        → map object_of objects.new.items ≡ map object_of objects.old.items ++ objects_in file.now.number list places (external_of external.now)) }
{
    match external {
        External::Function(_) => Ok(()),
        External::Declaration(d) => {
            let is_extern = file.externs.contains(&d.specs.at);
            push_items(alloc, file, is_extern, d.items.as_slice(), objects)
        }
    }
}

// Adds the objects that the file of this number declares.
fn push_file<'a>(
    alloc: Global,
    number: u8,
    named: &'a NamedFile<'a>,
    objects: &mut Vec<DeclaredObject<'a>>,
) -> Result<(), NoMemory>
    requires table { HasTable named.now }
    ensures { OnOk result (map object_of objects.new.items ≡ map object_of objects.old.items ++ file_objects number (tree_of named.now)) }
{
    let declaring = Declaring {
        number,
        statics: &named.statics,
        externs: places_of(alloc, &named.file.externs)?,
    };
    for external in named.file.unit.externals() {
        push_external(alloc, &declaring, external, objects)?;
    }
    Ok(())
}

// The objects that the files declare.
fn declared<'a>(
    alloc: Global,
    files: &'a [NamedFile<'a>],
) -> Result<Vec<DeclaredObject<'a>>, NoMemory>
    requires few { length files.now ≤ 16 }
    requires tables { All HasTable files.now }
    ensures { IfOk result (λ objects. map object_of objects.items ≡ all_objects 1 (map tree_of files.now)) }
{
    let mut objects = Vec::new(alloc);
    let mut number = 0;
    for file in files {
        number += 1;
        push_file(alloc, number, file, &mut objects)?;
    }
    Ok(objects)
}

// The names in the joined text of those that are defined.
fn defined<'a>(alloc: Global, objects: &'a [DeclaredObject<'_>]) -> Result<Names<'a>, NoMemory>
    ensures { IfOk result (λ names. AreNames names (definitions.defined_names (map object_of objects.now))) }
{
    let mut names = Names::new(alloc);
    for object in objects {
        if object.defines {
            names.insert(object.joined.as_str())?;
        }
    }
    Ok(names)
}

// Whether an object is defined, where these are the names of those that are.
fn is_defined(names: &Names<'_>, object: &DeclaredObject<'_>) -> bool
    ensures { result ≡ (object.now.defines || has_name names.now object.now.joined) }
{
    object.defines || names.contains(object.joined.as_str())
}

// The name of the first that isn't among them.
fn first_undefined<'a>(names: &Names<'_>, objects: &[DeclaredObject<'a>]) -> Option<&'a str>
    ensures { AreNames names.now (definitions.defined_names (map object_of objects.now))
        → option_map (λ name. name.now) result ≡ undefined_name (map object_of objects.now) }
{
    for object in objects {
        if !is_defined(names, object) {
            return Some(object.name);
        }
    }
    None
}

/// Refuses the first object of the files, at most sixteen, that is declared and not defined.
pub(crate) fn check_defined(alloc: Global, files: &[NamedFile<'_>]) -> Result<(), UnitFault>
    requires few { length files.now ≤ 16 }
    requires tables { All HasTable files.now }
    ensures none { OnOk result (undefined_fault (map tree_of files.now) ≡ None) }
    ensures fault { IfErr result (λ fault. fault ≢ faults.NoMemory → undefined_fault (map tree_of files.now) ≡ Some fault) }
{
    let objects = declared(alloc, files)?;
    let names = defined(alloc, &objects)?;
    match first_undefined(&names, &objects) {
        Some(name) => Err(UnitFault::Undefined {
            name: Text::copy_of(alloc, name)?,
        }),
        None => Ok(()),
    }
}
