//! Program images.
ghost use Rattle.std.specs.Prelude.{◌≡◌};
ghost use Rattle.c25_isa.specs.Image.{IsImage};

use std::marker::Model;
use word_base::Text;

/// Where a function stands in an image: its first and its last program word.
#[derive(Drop)]
pub struct FunctionRange {
    pub name: Text,
    pub first: u16,
    pub last: u16,
}

/// At most 65,536 program words, and the functions among them: their ranges rise, don't overlap and lie within the words,
/// and each name is one. Contracts see the list of the words and that of the functions.
#[derive(Drop)]
pub struct Image {
    words: Vec<u16>,
    functions: Vec<FunctionRange>,
}

impl Model for Image {
    ghost use Rattle.c25_isa.specs.Image.{Contents, IsImage};

    ghost Value = { Contents };

    ghost view = { λ i. record { words = i.words.items; functions = i.functions.items } };

    ghost invariant = { λ i. IsImage i.words.items i.functions.items };
}

impl Image {
    /// The image of these words and functions. It takes no memory.
    pub fn new(words: Vec<u16>, functions: Vec<FunctionRange>) -> Self
        requires { IsImage words.items functions.items }
        ensures { result ≡ record { words = words.items; functions = functions.items } }
    {
        Image { words, functions }
    }

    pub fn words(&self) -> &[u16]
        ensures words { result.now ≡ self.now.words }
        ensures image { IsImage self.now.words self.now.functions }
    {
        &self.words
    }

    pub fn functions(&self) -> &[FunctionRange]
        ensures { result.now ≡ self.now.functions }
    {
        &self.functions
    }
}
