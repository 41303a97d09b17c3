//! What a port has left.
ghost use Rattle.std.specs.Prelude.{◌≡◌, [], ◌∷◌, MatchOption};

use std::marker::Model;

/// The words that a port has left. Contracts see the list of them.
#[derive(Drop)]
pub struct PortInput {
    words: Vec<u16>,
    next: usize,
}

impl Model for PortInput {
    ghost use Rattle.std.specs.Prelude.{List, ℕ, ◌≤◌, drop, vec_len};

    ghost Value = { List ℕ };

    ghost view = { λ i. drop i.next i.words.items };

    ghost invariant = { λ i. i.next ≤ vec_len i.words };
}

impl PortInput {
    /// The words of a vector, the first one first. It takes no memory.
    pub fn new(words: Vec<u16>) -> Self
        ensures { result ≡ words.items }
    {
        PortInput { words, next: 0 }
    }

    /// Takes the next word, where there is one.
    pub fn take(&mut self) -> Option<u16>
        ensures { MatchOption result
            ((self.old ≡ []) × (self.new ≡ self.old))
            (λ word. self.old ≡ word ∷ self.new) }
    {
        if self.next == self.words.len() {
            return None;
        }
        let word = self.words[self.next];
        self.next += 1;
        Some(word)
    }
}
