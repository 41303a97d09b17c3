//! `run IMG PORTS [--steps M]`.
ghost use Rattle.std.specs.Prelude.{◌≡◌, option_map};
ghost use Rattle.cc_options.specs.Options.{name_of};
ghost use Rattle.cc_words.specs.Asked.{ToRun, numbered_by, told};

use crate::asked::Request;
use cc_options::Given;

/// To run an image.
#[derive(Clone, Copy)]
pub struct Run<'a> {
    /// The name of the image.
    pub image: &'a str,
    /// The name of the file that holds the ports.
    pub ports: &'a str,
    /// After how many steps the run is cut off.
    pub steps: u64,
}

/// What the values of `run` ask for.
pub(crate) fn found<'a>(given: &Given<'a>) -> Option<Request<'a>>
    ensures { option_map told result
        ≡ numbered_by ToRun (option_map name_of given.now.first) (option_map name_of given.now.second) given.now.one }
{
    let image = given.first?;
    let ports = given.second?;
    let steps = u64::from(given.one?);
    Some(Request::Run(Run {
        image,
        ports,
        steps,
    }))
}
