//! `check IMG CERT`.
ghost use Rattle.std.specs.Prelude.{◌≡◌, option_map};
ghost use Rattle.cc_options.specs.Options.{name_of};
ghost use Rattle.cc_words.specs.Asked.{ToCheck, both_by, told};

use crate::asked::Request;
use cc_options::Given;

/// To check an image by a certificate.
#[derive(Clone, Copy)]
pub struct Check<'a> {
    /// The name of the image.
    pub image: &'a str,
    /// The name of the certificate.
    pub certificate: &'a str,
}

/// What the values of `check` ask for.
pub(crate) fn found<'a>(given: &Given<'a>) -> Option<Request<'a>>
    ensures { option_map told result ≡ both_by ToCheck (option_map name_of given.now.first) (option_map name_of given.now.second) }
{
    let image = given.first?;
    let certificate = given.second?;
    Some(Request::Check(Check { image, certificate }))
}
