//! `means SRC PORTS [--turns N]`.
ghost use Rattle.std.specs.Prelude.{◌≡◌, option_map};
ghost use Rattle.cc_options.specs.Options.{name_of};
ghost use Rattle.cc_words.specs.Asked.{ToEvaluate, numbered_by, told};

use crate::asked::Request;
use cc_options::Given;

/// To evaluate a source.
#[derive(Clone, Copy)]
pub struct Means<'a> {
    /// The name of the source.
    pub source: &'a str,
    /// The name of the file that holds the ports.
    pub ports: &'a str,
    /// How many turns each execution of each loop may have.
    pub turns: u32,
}

/// What the values of `means` ask for.
pub(crate) fn found<'a>(given: &Given<'a>) -> Option<Request<'a>>
    ensures { option_map told result
        ≡ numbered_by ToEvaluate (option_map name_of given.now.first) (option_map name_of given.now.second) given.now.one }
{
    let source = given.first?;
    let ports = given.second?;
    let turns = given.one?;
    Some(Request::Means(Means {
        source,
        ports,
        turns,
    }))
}
