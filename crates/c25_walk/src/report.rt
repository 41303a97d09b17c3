//! What a walk answers.
ghost use Rattle.std.specs.Prelude.{◌≡◌, ◌≤◌, length};

use std::marker::Model;

/// The addresses of data memory that a stretch accesses through AR2 to AR5, one at least, in the order of the accesses. Contracts see
/// the list of them.
#[derive(Drop)]
pub struct AddressBlock {
    addresses: Vec<u16>,
}

impl Model for AddressBlock {
    ghost use Rattle.std.specs.Prelude.{ℕ, ◌≤◌, List, length};

    ghost Value = { List ℕ };

    ghost view = { λ b. b.addresses.items };

    ghost invariant = { λ b. 1 ≤ length b.addresses.items };
}

impl AddressBlock {
    // It takes no memory.
    pub(crate) fn new(addresses: Vec<u16>) -> Self
        requires { 1 ≤ length addresses.items }
        ensures { result ≡ addresses.items }
    {
        AddressBlock { addresses }
    }

    pub fn addresses(&self) -> &[u16]
        ensures addresses { result.now ≡ self.now }
        ensures some { 1 ≤ length result.now }
    {
        &self.addresses
    }
}

/// The addresses of each stretch that lists some, in the order of the words, and how many instructions do nothing but move an
/// address register.
#[derive(Drop)]
pub struct WalkReport {
    pub blocks: Vec<AddressBlock>,
    /// For each block the program address of the instruction of its first access.
    pub places: Vec<u16>,
    pub count: u32,
}
