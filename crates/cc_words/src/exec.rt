//! `exec SRC PORTS [--steps M]`.
ghost use Rattle.std.specs.Prelude.{◌≡◌, option_map};
ghost use Rattle.cc_options.specs.Options.{name_of};
ghost use Rattle.cc_words.specs.Asked.{ToExecute, numbered_by, told};

use crate::asked::Request;
use cc_options::Given;

/// To compile a source and run it.
#[derive(Clone, Copy)]
pub struct Exec<'a> {
    /// The name of the source.
    pub source: &'a str,
    /// The name of the file that holds the ports.
    pub ports: &'a str,
    /// After how many steps the run is cut off.
    pub steps: u64,
}

/// What the values of `exec` ask for.
pub(crate) fn found<'a>(given: &Given<'a>) -> Option<Request<'a>>
    ensures { option_map told result
        ≡ numbered_by ToExecute (option_map name_of given.now.first) (option_map name_of given.now.second) given.now.one }
{
    let source = given.first?;
    let ports = given.second?;
    let steps = u64::from(given.one?);
    Some(Request::Exec(Exec {
        source,
        ports,
        steps,
    }))
}
