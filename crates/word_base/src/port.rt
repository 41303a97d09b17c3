//! The words that pass through ports.
ghost use Rattle.std.specs.Prelude.{◌≡◌, ◌<◌};

use std::marker::Model;

/// A word at a port, which is below 16. Contracts see the pair of the two.
#[derive(Clone, Copy, Debug, PartialEq, Eq)]
pub struct PortWord {
    port: u8,
    word: u16,
}

impl Model for PortWord {
    ghost use Rattle.std.specs.Prelude.{ℕ, ◌<◌};

    ghost Value = { ℕ × ℕ };

    ghost view = { λ p. (p.port, p.word) };

    ghost invariant = { λ p. p.port < 16 };

    ghost inverse = { λ v. record { port = v.0; word = v.1 } };
}

impl PortWord {
    pub fn new(port: u8, word: u16) -> Self
        requires { port < 16 }
        ensures { result ≡ (port, word) }
    {
        PortWord { port, word }
    }

    pub fn port(&self) -> u8
        ensures value { result ≡ self.now.0 }
        ensures below { result < 16 }
    {
        self.port
    }

    pub fn word(&self) -> u16
        ensures { result ≡ self.now.1 }
    {
        self.word
    }
}

/// What the ports are given: words with their ports, in the order of their lines. The input of a
/// port is the words of its lines in order. Contracts see the list of the lines.
#[derive(Drop)]
pub struct Ports {
    lines: Vec<PortWord>,
}

impl Model for Ports {
    ghost use Rattle.std.specs.Prelude.{List, ℕ};

    ghost Value = { List (ℕ × ℕ) };

    ghost view = { λ p. p.lines.items };
}

impl Ports {
    /// The ports of these lines. It takes no memory.
    pub fn new(lines: Vec<PortWord>) -> Self
        ensures { result ≡ lines.items }
    {
        Ports { lines }
    }

    pub fn lines(&self) -> &[PortWord]
        ensures { result.now ≡ self.now }
    {
        &self.lines
    }

    /// The lines again. It takes no memory.
    pub fn into_lines(self) -> Vec<PortWord>
        ensures { result.items ≡ self }
    {
        self.lines
    }
}

/// The words that were put out, in order, each with its port. Contracts see the list of them.
#[derive(Drop)]
pub struct Outs {
    words: Vec<PortWord>,
}

impl Model for Outs {
    ghost use Rattle.std.specs.Prelude.{List, ℕ};

    ghost Value = { List (ℕ × ℕ) };

    ghost view = { λ o. o.words.items };
}

impl Outs {
    /// These words, in this order. It takes no memory.
    pub fn new(words: Vec<PortWord>) -> Self
        ensures { result ≡ words.items }
    {
        Outs { words }
    }

    pub fn words(&self) -> &[PortWord]
        ensures { result.now ≡ self.now }
    {
        &self.words
    }

    /// The words again. It takes no memory.
    pub fn into_words(self) -> Vec<PortWord>
        ensures { result.items ≡ self }
    {
        self.words
    }
}
