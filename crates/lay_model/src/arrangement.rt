//! Arrangements.
ghost use Rattle.std.specs.Prelude.{◌≡◌, ◌≤◌, length};
ghost use Rattle.std.specs.List.{concat};
ghost use Rattle.lay_model.specs.Arrangements.{Arranges};

use crate::scalar_list::ScalarList;
use std::marker::Model;

/// Scalars in lists, one list for each address register that goes over some: each of the scalars 0, 1, .. stands once, and no list is
/// empty. Contracts see the lists.
#[derive(Debug, Drop)]
pub struct Arrangement {
    lists: Vec<ScalarList>,
}

impl Model for Arrangement {
    ghost use Rattle.std.specs.Prelude.{List, ℕ, length};
    ghost use Rattle.std.specs.List.{concat};
    ghost use Rattle.lay_model.specs.Arrangements.{Arranges};

    ghost Value = { List (List ℕ) };

    ghost view = { λ a. a.lists.items };

    ghost invariant = { λ a. Arranges (length (concat a.lists.items)) a.lists.items };
}

impl Arrangement {
    /// The arrangement in these lists. It takes no memory.
    pub fn new(lists: Vec<ScalarList>) -> Self
        requires { Arranges (length (concat lists.items)) lists.items }
        ensures { result ≡ lists.items }
    {
        Arrangement { lists }
    }

    /// A list for each register, in order.
    pub fn lists(&self) -> &[ScalarList]
        ensures lists { result.now ≡ self.now }
        ensures arranges { Arranges (length (concat self.now)) self.now }
    {
        &self.lists
    }
}
