//! Objects of a function, and how names are declared.
ghost use Rattle.std.specs.Prelude.{◌≡◌};
ghost use Rattle.c_rules.specs.Renumbering.{number_in};

use crate::meaning::ObjectType;
use c_tree::{Initial, VarRef};
use word_base::{Items, Text};

/// A parameter or an object of a block.
#[derive(Drop)]
pub struct Local {
    pub name: Text,
    pub object_type: ObjectType,
    /// The list of an initialised array.
    pub values: Items<Initial>,
}

/// Whether parameters have to be named, as they have in a function with a body.
#[derive(Clone, Copy, PartialEq, Eq)]
pub enum Naming {
    Needed,
    Free,
}

/// The number of an object, whatever its kind.
pub fn number_in(reference: VarRef) -> u32
    ensures { result ≡ number_in reference }
{
    match reference {
        VarRef::Scalar(number) => u32::from(number),
        VarRef::Local(number) | VarRef::Static(number) => number,
    }
}
