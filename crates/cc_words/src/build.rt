//! `build SRC IMG [-r N] [--budget B] [--step D]`.
ghost use Rattle.std.specs.Prelude.{◌≡◌, option_map};
ghost use Rattle.cc_options.specs.Options.{name_of};
ghost use Rattle.cc_words.specs.Asked.{build_by, told};
ghost use Rattle.cc_words.specs.Tables.{byte_of};

use crate::asked::Request;
use crate::options::byte;
use cc_options::Given;

/// To compile a source and store its image.
#[derive(Clone, Copy)]
pub struct Build<'a> {
    /// The name of the source.
    pub source: &'a str,
    /// The name of the image.
    pub image: &'a str,
    /// For how many registers the layouts of frames are, from 1 to 4.
    pub registers: u8,
    /// How many nodes each search for a layout may visit, from 1 to 1,000,000.
    pub budget: u32,
    /// The step of the layouts, from 1 to 8: a move by it may be free beside one by 1.
    pub step: u8,
}

/// What the values of `build` ask for.
pub(crate) fn found<'a>(given: &Given<'a>) -> Option<Request<'a>>
    ensures { option_map told result ≡ build_by (option_map name_of given.now.first) (option_map name_of given.now.second)
        (byte_of given.now.one) given.now.two (byte_of given.now.three) }
{
    let source = given.first?;
    let image = given.second?;
    let registers = byte(given.one)?;
    let budget = given.two?;
    let step = byte(given.three)?;
    Some(Request::Build(Build {
        source,
        image,
        registers,
        budget,
        step,
    }))
}
