//! Where the marks of a piece stand.
ghost use Rattle.std.specs.Prelude.{◌≡◌, ◌+◌, ◌≤◌, IfOk, OnOk};
ghost use Rattle.c25_isa.specs.Pieces.{items_size};
ghost use Rattle.c25_link.specs.Linking.{mark_addresses};
ghost use Rattle.c25_link.specs.Addresses.{MarkTable as Table, marks_in, mark_in, with_mark};

use crate::sizes::{item_words, wrap16};
use c25_isa::PieceItem;
use std::alloc::Global;
use std::collections::HashMap;
use word_base::NoMemory;

/// The addresses of a piece's marks.
#[derive(Drop)]
pub struct Marks {
    addresses: HashMap<u32, u16>,
    // That of a mark which isn't there.
    behind: u16,
}

impl Marks {
    /// The marks of items that stand from an address on.
    pub fn of(alloc: Global, items: &[PieceItem], at: u32) -> Result<Self, NoMemory>
        requires { at + items_size items.now ≤ 65536 }
        ensures { IfOk result (λ marks. mark_in marks ≡ mark_addresses at items.now) }
    {
        let mut addresses = HashMap::new(alloc);
        let mut address = at;
        for item in items {
            note_mark(&mut addresses, item, address)?;
            address += item_words(item);
        }
        Ok(Marks {
            addresses,
            behind: wrap16(address),
        })
    }

    /// The address of a mark: where it isn't there, that behind the items.
    pub fn address(&self, mark: u32) -> u16
        ensures { result ≡ mark_in self.now mark }
    {
        self.addresses.get(&mark).copied().unwrap_or(self.behind)
    }
}

// An item that is a mark has its address, unless the mark stood before.
fn note_mark(
    addresses: &mut HashMap<u32, u16>,
    item: &PieceItem,
    address: u32,
) -> Result<(), NoMemory>
    ensures { OnOk result (marks_in addresses.new ≡ with_mark item.now address (marks_in addresses.old)) }
{
    let PieceItem::Mark(mark) = item else {
        return Ok(());
    };
    if !addresses.contains_key(mark) {
        addresses.insert(*mark, wrap16(address))?;
    }
    Ok(())
}
