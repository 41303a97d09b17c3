//! `layout SEQ [-r N] [--budget B]`.
ghost use Rattle.std.specs.Prelude.{◌≡◌, option_map};
ghost use Rattle.cc_options.specs.Options.{name_of};
ghost use Rattle.cc_words.specs.Asked.{layout_by, told};
ghost use Rattle.cc_words.specs.Tables.{byte_of};

use crate::asked::Request;
use crate::options::byte;
use cc_options::Given;

/// To search a layout for an access sequence.
#[derive(Clone, Copy)]
pub struct Layout<'a> {
    /// The name of the file that holds the sequence.
    pub sequence: &'a str,
    /// For how many registers the layout is.
    pub registers: u8,
    /// How many nodes the search may visit.
    pub budget: u32,
}

/// What the values of `layout` ask for.
pub(crate) fn found<'a>(given: &Given<'a>) -> Option<Request<'a>>
    ensures { option_map told result ≡ layout_by (option_map name_of given.now.first) (byte_of given.now.one) given.now.two }
{
    let sequence = given.first?;
    let registers = byte(given.one)?;
    let budget = given.two?;
    Some(Request::Layout(Layout {
        sequence,
        registers,
        budget,
    }))
}
