//! The statics of a file, and their names.
ghost use Rattle.std.specs.Prelude.{◌≡◌, ◌||◌, if◌then◌else◌, ℕ, List, IfOk, OnOk, map};
ghost use Rattle.c_tree.specs.c_syntax.SyntaxView.{unit_of, external_of, item_of};
ghost use Rattle.c_tree.specs.c_syntax.declared.syntax.SpecWord.TheVariants.{Static};
ghost use Rattle.c_rules.specs.Typing.{has};
ghost use Rattle.c_rules.specs.Units.{is_name_among};
ghost use Rattle.c_units.specs.Statics as statics;
ghost use Rattle.c_units.specs.Statics.{statics_of, statics_in};
ghost use Rattle.c_units.specs.Views.{has_name, AreNames};

use crate::names::Names;
use c_syntax::{External, Item, SpecWord, Specs, Unit};
use std::alloc::Global;
use word_base::{NoMemory, Text};

// Whether `static` is among the words of a type.
fn is_static(specs: &Specs) -> bool
    ensures { result ≡ has Static specs.now.words }
{
    let words = specs.words.as_slice();
    words.iter().any(|w| matches!(w, SpecWord::Static))
}

// Adds the names of items.
fn add_items<'a>(names: &mut Names<'a>, items: &'a [Item]) -> Result<(), NoMemory>
    ensures { OnOk result ((name : List ℕ)
        → has_name names.new name ≡ has_name names.old name || is_name_among name (map (λ item. item.name) (map item_of items.now))) }
{
    for item in items {
        names.insert(item.name.as_str())?;
    }
    Ok(())
}

// Adds the names that an external declares with `static`.
fn add_statics<'a>(names: &mut Names<'a>, external: &'a External) -> Result<(), NoMemory>
    ensures { OnOk result ((name : List ℕ)
        → has_name names.new name ≡ has_name names.old name || is_name_among name (statics_in (external_of external.now))) }
{
    match external {
        External::Function(f) => {
            if is_static(&f.specs) {
                names.insert(f.name.as_str())?;
            }
        }
        External::Declaration(d) => {
            if is_static(&d.specs) {
                add_items(names, d.items.as_slice())?;
            }
        }
    }
    Ok(())
}

/// The names of a file's statics.
pub(crate) fn statics_of<'a>(alloc: Global, unit: &'a Unit) -> Result<Names<'a>, NoMemory>
    ensures { IfOk result (λ names. AreNames names (statics_of (unit_of unit.now))) }
{
    let mut names = Names::new(alloc);
    for external in unit.externals() {
        add_statics(&mut names, external)?;
    }
    Ok(names)
}

/// The name that a static of the file of this number, from 1, gets.
pub(crate) fn static_name(alloc: Global, number: u8, name: &str) -> Result<Text, NoMemory>
    ensures { IfOk result (λ text. text ≡ statics.static_name number name.now) }
{
    Ok(Text::new(format!(in alloc; "{name}__{number}")?))
}
