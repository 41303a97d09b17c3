//! What the code of a function is made with.
ghost use Rattle.std.specs.Prelude.{◌≡◌};
ghost use Rattle.emit_control.specs.Settings as settings;
ghost use Rattle.emit_control.specs.Settings.{setting_of};
ghost use Rattle.emit_blocks.specs.Places.{address_in};

use acc_code::{AccFunction, HelperName};
use c_tree::VarRef;
use c25_helper::Routine;
use emit_blocks::Site;

/// Where the words of a function lie, and the functions that it may call.
#[derive(Clone, Copy)]
pub struct Setting<'a> {
    pub site: Site<'a>,
    /// The lengths of its local objects, in words.
    pub lengths: &'a [u16],
    /// The word that keeps its return address, where it has one.
    pub back: Option<u16>,
    /// The functions of the program, by their numbers.
    pub functions: &'a [AccFunction],
}

/// Words of data memory, from an address on.
#[derive(Clone, Copy)]
pub struct Words {
    pub first: u16,
    pub count: u16,
}

fn number_in(numbers: &[u16], n: u32) -> u16
    ensures { result ≡ address_in numbers.now n }
{
    match numbers.get(n as usize) {
        Some(number) => *number,
        None => 0,
    }
}

impl Setting<'_> {
    // The words of an object from a cell on.
    pub(crate) fn cells(&self, object: VarRef, from: u16) -> Words
        ensures { result ≡ settings.cells_of (setting_of self.now) object from }
    {
        match object {
            VarRef::Local(n) => Words {
                first: number_in(self.site.locals, n).wrapping_add(from),
                count: number_in(self.lengths, n).saturating_sub(from),
            },
            _ => Words { first: 0, count: 0 },
        }
    }

    // The name of a function; of one that isn't there, nothing.
    pub(crate) fn function_name(&self, function: u16) -> &str
        ensures { result.now ≡ settings.function_name (setting_of self.now) function }
    {
        match self.functions.get(function as usize) {
            Some(function) => function.name.as_str(),
            None => "",
        }
    }
}

// The name of a routine.
pub(crate) fn helper_name(name: HelperName) -> &'static str
    ensures { result.now ≡ settings.helper_name name }
{
    let routine = match name {
        HelperName::DivInt => Routine::DivInt,
        HelperName::DivUnsigned => Routine::DivUnsigned,
        HelperName::RemInt => Routine::RemInt,
        HelperName::RemUnsigned => Routine::RemUnsigned,
        HelperName::ShrInt => Routine::ShrInt,
        HelperName::ShrUnsigned => Routine::ShrUnsigned,
    };
    routine.name()
}
