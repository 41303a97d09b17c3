//! Why pieces aren't linked.
ghost use Rattle.std.specs.Prelude.{◌≡◌};
ghost use Rattle.c25_link.specs.declared.fault.LinkFault.TheVariants as faults;

use word_base::NoMemory;

/// Why pieces become no image.
#[derive(Clone, Copy, PartialEq, Eq)]
pub enum LinkFault {
    /// They take this many words together, which are more than 65,536.
    CodeFull { words: u32 },
    /// Memory was wanting.
    NoMemory,
}

impl From<NoMemory> for LinkFault {
    ghost from_gives = { λ _ e. e ≡ faults.NoMemory };

    fn from(_: NoMemory) -> Self {
        LinkFault::NoMemory
    }
}
