//! `pbuild SRC IMG0 PORTS IMG [-r N] [--budget B] [--steps M]`.
ghost use Rattle.std.specs.Prelude.{◌≡◌, option_map};
ghost use Rattle.cc_options.specs.Options.{name_of};
ghost use Rattle.cc_words.specs.Asked.{pbuild_by, told};
ghost use Rattle.cc_words.specs.Tables.{byte_of};

use crate::asked::Request;
use crate::options::byte;
use cc_options::Given;

/// To compile a source anew, with layouts for a recorded run of an image of it.
#[derive(Clone, Copy)]
pub struct Pbuild<'a> {
    /// The name of the source.
    pub source: &'a str,
    /// The name of the image that is run.
    pub first: &'a str,
    /// The name of the file that holds the ports.
    pub ports: &'a str,
    /// The name of the new image.
    pub image: &'a str,
    /// For how many registers the layouts of frames are, from 1 to 4.
    pub registers: u8,
    /// How many nodes each search for a layout may visit, from 1 to 1,000,000.
    pub budget: u32,
    /// After how many steps the recorded run is cut off, from 1 to 100,000,000.
    pub steps: u64,
}

/// What the values of `pbuild` ask for.
pub(crate) fn found<'a>(given: &Given<'a>) -> Option<Request<'a>>
    ensures { option_map told result ≡ pbuild_by (option_map name_of given.now.first) (option_map name_of given.now.second)
        (option_map name_of given.now.third) (option_map name_of given.now.fourth) (byte_of given.now.one) given.now.two given.now.three }
{
    let source = given.first?;
    let first = given.second?;
    let ports = given.third?;
    let image = given.fourth?;
    let registers = byte(given.one)?;
    let budget = given.two?;
    let steps = u64::from(given.three?);
    Some(Request::Pbuild(Pbuild {
        source,
        first,
        ports,
        image,
        registers,
        budget,
        steps,
    }))
}
