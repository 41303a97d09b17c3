//! Lists of scalars.
ghost use Rattle.std.specs.Prelude.{◌≡◌};

use std::marker::Model;

/// Scalars of a frame by their numbers, in order. Contracts see the list of the numbers.
#[derive(Debug, Drop)]
pub struct ScalarList {
    scalars: Vec<u8>,
}

impl Model for ScalarList {
    ghost use Rattle.std.specs.Prelude.{List, ℕ};

    ghost Value = { List ℕ };

    ghost view = { λ l. l.scalars.items };
}

impl ScalarList {
    /// The list of these numbers. It takes no memory.
    pub fn new(scalars: Vec<u8>) -> Self
        ensures { result ≡ scalars.items }
    {
        ScalarList { scalars }
    }

    pub fn scalars(&self) -> &[u8]
        ensures { result.now ≡ self.now }
    {
        &self.scalars
    }

    /// The vector again. It takes no memory.
    pub fn into_vec(self) -> Vec<u8>
        ensures { result.items ≡ self }
    {
        self.scalars
    }
}
