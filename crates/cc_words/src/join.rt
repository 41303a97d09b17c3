//! `join OUT SRC..`.
ghost use Rattle.std.specs.Prelude.{◌≡◌, option_map};
ghost use Rattle.cc_options.specs.Options.{name_of, names_of};
ghost use Rattle.cc_words.specs.Asked.{join_by, told};

use crate::asked::Request;
use cc_options::Given;

/// To join sources.
#[derive(Drop)]
pub struct Join<'a> {
    /// The name of the joined source.
    pub output: &'a str,
    /// The names of the sources, from 1 to 16 of them.
    pub sources: Vec<&'a str>,
}

/// What the values of `join` ask for.
pub(crate) fn found<'a>(given: Given<'a>) -> Option<Request<'a>>
    ensures { option_map told result ≡ join_by (option_map name_of given.entry.first) (option_map names_of given.entry.rest) }
{
    let output = given.first?;
    let sources = given.rest?;
    Some(Request::Join(Join { output, sources }))
}
