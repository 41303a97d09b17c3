//! `asm TEXT IMG`.
ghost use Rattle.std.specs.Prelude.{◌≡◌, option_map};
ghost use Rattle.cc_options.specs.Options.{name_of};
ghost use Rattle.cc_words.specs.Asked.{ToAssemble, both_by, told};

use crate::asked::Request;
use cc_options::Given;

/// To assemble a text to an image.
#[derive(Clone, Copy)]
pub struct Asm<'a> {
    /// The name of the text.
    pub text: &'a str,
    /// The name of the image.
    pub image: &'a str,
}

/// What the values of `asm` ask for.
pub(crate) fn found<'a>(given: &Given<'a>) -> Option<Request<'a>>
    ensures { option_map told result ≡ both_by ToAssemble (option_map name_of given.now.first) (option_map name_of given.now.second) }
{
    let text = given.first?;
    let image = given.second?;
    Some(Request::Asm(Asm { text, image }))
}
