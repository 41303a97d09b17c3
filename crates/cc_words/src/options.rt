//! The numbers of commands, and their further names.
ghost use Rattle.std.specs.Prelude.{◌≡◌};
ghost use Rattle.cc_options.specs.Options.{quantity_of, several_of};
ghost use Rattle.cc_words.specs.Tables as tables;
ghost use Rattle.cc_words.specs.Tables.{byte_of};

use cc_options::{Form, Names, Number};

/// `--steps M`.
pub(crate) fn steps<'a>() -> Number<'a>
    ensures { quantity_of result ≡ tables.steps }
{
    Number {
        id: "steps",
        form: Form::Long("1000000"),
        greatest: 100_000_000,
    }
}

/// `--turns N`.
pub(crate) fn turns<'a>() -> Number<'a>
    ensures { quantity_of result ≡ tables.turns }
{
    Number {
        id: "turns",
        form: Form::Long("10000"),
        greatest: 1_000_000,
    }
}

/// `-r N`.
pub(crate) fn registers<'a>() -> Number<'a>
    ensures { quantity_of result ≡ tables.registers }
{
    Number {
        id: "registers",
        form: Form::Letter('r', "1"),
        greatest: 4,
    }
}

/// `--budget B`.
pub(crate) fn budget<'a>() -> Number<'a>
    ensures { quantity_of result ≡ tables.budget }
{
    Number {
        id: "budget",
        form: Form::Long("200000"),
        greatest: 1_000_000,
    }
}

/// `--step D`.
pub(crate) fn step<'a>() -> Number<'a>
    ensures { quantity_of result ≡ tables.step }
{
    Number {
        id: "step",
        form: Form::Long("1"),
        greatest: 8,
    }
}

/// `gen N`.
pub(crate) fn program<'a>() -> Number<'a>
    ensures { quantity_of result ≡ tables.program }
{
    Number {
        id: "number",
        form: Form::Word,
        greatest: 200,
    }
}

/// `SRC..` of `join`.
pub(crate) fn sources<'a>() -> Names<'a>
    ensures { several_of result ≡ tables.sources }
{
    Names {
        id: "sources",
        most: 16,
    }
}

/// The number, if a byte holds it.
pub(crate) fn byte(number: Option<u32>) -> Option<u8>
    ensures { result ≡ byte_of number }
{
    let number = number?;
    if number < 256 {
        Some(number as u8)
    } else {
        None
    }
}
