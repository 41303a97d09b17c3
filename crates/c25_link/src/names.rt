//! Where the names of pieces stand.
ghost use Rattle.std.specs.Prelude.{◌≡◌, ◌≤◌, map, IfOk, OnOk};
ghost use Rattle.c25_isa.specs.Pieces.{piece_of};
ghost use Rattle.c25_link.specs.Linking.{pieces_words, name_addresses};
ghost use Rattle.c25_link.specs.Addresses.{names_in, name_in, with_name};

use crate::sizes::{items_words, wrap16};
use c25_isa::Piece;
use std::alloc::Global;
use std::collections::HashMap;
use word_base::NoMemory;

/// The addresses of the names of pieces that stand one behind another from program word 0 on.
#[derive(Drop)]
pub struct Names<'a> {
    addresses: HashMap<&'a str, u16>,
    // That of a name which isn't there.
    behind: u16,
}

impl<'a> Names<'a> {
    /// The names of pieces.
    pub fn of(alloc: Global, pieces: &'a [Piece]) -> Result<Self, NoMemory>
        requires { pieces_words (map piece_of pieces.now) ≤ 65536 }
        ensures { IfOk result (λ names. name_in names ≡ name_addresses (map piece_of pieces.now)) }
    {
        let mut addresses = HashMap::new(alloc);
        let mut address = 0;
        for piece in pieces {
            note_name(&mut addresses, piece.name.as_str(), address)?;
            address += items_words(&piece.items);
        }
        Ok(Names {
            addresses,
            behind: wrap16(address),
        })
    }

    /// The address of a name: where it isn't there, that behind the pieces.
    pub fn address(&self, name: &str) -> u16
        ensures { result ≡ name_in self.now name.now }
    {
        self.addresses.get(name).copied().unwrap_or(self.behind)
    }
}

// A name has its address, unless a piece before has the name.
fn note_name<'a>(
    addresses: &mut HashMap<&'a str, u16>,
    name: &'a str,
    address: u32,
) -> Result<(), NoMemory>
    ensures { OnOk result (names_in addresses.new ≡ with_name name.now address (names_in addresses.old)) }
{
    if !addresses.contains_key(name) {
        addresses.insert(name, wrap16(address))?;
    }
    Ok(())
}
