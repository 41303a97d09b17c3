//! `gen N`.
ghost use Rattle.std.specs.Prelude.{◌≡◌, option_map};
ghost use Rattle.cc_words.specs.Asked.{ToGenerate, told};

use crate::asked::Request;
use cc_options::Given;

/// To make a program from a number and run it.
#[derive(Clone, Copy)]
pub struct Gen {
    /// The number, from 1 to 200.
    pub number: u32,
}

/// What the values of `gen` ask for.
pub(crate) fn found<'a>(given: &Given<'a>) -> Option<Request<'a>>
    ensures { option_map told result ≡ option_map ToGenerate given.now.one }
{
    let number = given.one?;
    Some(Request::Gen(Gen { number }))
}
