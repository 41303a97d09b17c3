//! `dis IMG`.
ghost use Rattle.std.specs.Prelude.{◌≡◌, option_map};
ghost use Rattle.cc_options.specs.Options.{name_of};
ghost use Rattle.cc_words.specs.Asked.{ToList, told};

use crate::asked::Request;
use cc_options::Given;

/// To list the words of an image.
#[derive(Clone, Copy)]
pub struct Dis<'a> {
    /// The name of the image.
    pub image: &'a str,
}

/// What the values of `dis` ask for.
pub(crate) fn found<'a>(given: &Given<'a>) -> Option<Request<'a>>
    ensures { option_map told result ≡ option_map ToList (option_map name_of given.now.first) }
{
    let image = given.first?;
    Some(Request::Dis(Dis { image }))
}
