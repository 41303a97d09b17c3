//! The ports that a source names.
ghost use Rattle.std.specs.Prelude.{◌≡◌, ◌<◌};

use std::marker::Model;

/// A port by its number, which is below 16. Contracts see the number.
#[derive(Clone, Copy, PartialEq, Eq)]
pub struct Port {
    number: u8,
}

impl Model for Port {
    ghost use Rattle.std.specs.Prelude.{ℕ, ◌<◌};

    ghost Value = { ℕ };

    ghost view = { λ p. p.number };

    ghost invariant = { λ p. p.number < 16 };

    ghost inverse = { λ v. record { number = v } };
}

impl Port {
    /// The port of this number.
    pub fn new(number: u8) -> Self
        requires { number < 16 }
        ensures { result ≡ number }
    {
        Port { number }
    }

    pub fn number(self) -> u8
        ensures value { result ≡ self }
        ensures below { result < 16 }
    {
        self.number
    }
}
