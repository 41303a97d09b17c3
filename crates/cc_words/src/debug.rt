//! `debug IMG PORTS SCRIPT`.
ghost use Rattle.std.specs.Prelude.{◌≡◌, option_map};
ghost use Rattle.cc_options.specs.Options.{name_of};
ghost use Rattle.cc_words.specs.Asked.{debug_by, told};

use crate::asked::Request;
use cc_options::Given;

/// To follow a script over an image.
#[derive(Clone, Copy)]
pub struct Debug<'a> {
    /// The name of the image.
    pub image: &'a str,
    /// The name of the file that holds the ports.
    pub ports: &'a str,
    /// The name of the script.
    pub script: &'a str,
}

/// What the values of `debug` ask for.
pub(crate) fn found<'a>(given: &Given<'a>) -> Option<Request<'a>>
    ensures { option_map told result
        ≡ debug_by (option_map name_of given.now.first) (option_map name_of given.now.second) (option_map name_of given.now.third) }
{
    let image = given.first?;
    let ports = given.second?;
    let script = given.third?;
    Some(Request::Debug(Debug {
        image,
        ports,
        script,
    }))
}
