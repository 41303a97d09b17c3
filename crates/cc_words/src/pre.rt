//! `pre SRC OUT`.
ghost use Rattle.std.specs.Prelude.{◌≡◌, option_map};
ghost use Rattle.cc_options.specs.Options.{name_of};
ghost use Rattle.cc_words.specs.Asked.{ToExpand, both_by, told};

use crate::asked::Request;
use cc_options::Given;

/// To expand a source.
#[derive(Clone, Copy)]
pub struct Pre<'a> {
    /// The name of the source.
    pub source: &'a str,
    /// The name of the expanded source.
    pub output: &'a str,
}

/// What the values of `pre` ask for.
pub(crate) fn found<'a>(given: &Given<'a>) -> Option<Request<'a>>
    ensures { option_map told result ≡ both_by ToExpand (option_map name_of given.now.first) (option_map name_of given.now.second) }
{
    let source = given.first?;
    let output = given.second?;
    Some(Request::Pre(Pre { source, output }))
}
