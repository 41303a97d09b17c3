//! The names of the commands.
ghost use Rattle.std.specs.Prelude.{◌≡◌, option_map};
ghost use Rattle.cc_options.specs.Options.{options_of, quantity_of, values_of_given};
ghost use Rattle.cc_words.specs.Asked as asked;
ghost use Rattle.cc_words.specs.Asked.{told};
ghost use Rattle.cc_words.specs.Tables as tables;
ghost use Rattle.cc_words.specs.Tables.{options_of_name, values_ask};

use crate::asked::Request;
use crate::options::{budget, program, registers, sources, step, steps, turns};
use crate::{
    asm, build, check, debug, dis, exec, generated, join, layout, means, pbuild, pre, run,
};
use cc_options::{Given, Number, Table};

/// A command.
#[derive(Clone, Copy)]
pub(crate) enum Name {
    Build,
    Run,
    Means,
    Exec,
    Layout,
    Check,
    Asm,
    Dis,
    Gen,
    Debug,
    Pre,
    Join,
    Pbuild,
}

impl Name {
    /// The command that a word chooses.
    pub(crate) fn of(word: &str) -> Option<Name>
        ensures { result ≡ asked.name_of word.now }
    {
        match word {
            "build" => Some(Name::Build),
            "run" => Some(Name::Run),
            "means" => Some(Name::Means),
            "exec" => Some(Name::Exec),
            "layout" => Some(Name::Layout),
            "check" => Some(Name::Check),
            "asm" => Some(Name::Asm),
            "dis" => Some(Name::Dis),
            "gen" => Some(Name::Gen),
            "debug" => Some(Name::Debug),
            "pre" => Some(Name::Pre),
            "join" => Some(Name::Join),
            "pbuild" => Some(Name::Pbuild),
            _ => None,
        }
    }

    /// What it has.
    pub(crate) fn table<'a>(self) -> Table<'a>
        ensures { options_of result ≡ options_of_name self }
    {
        match self {
            Name::Build => Table {
                two: Some(budget()),
                three: Some(step()),
                ..two_names("build", "source", "image", Some(registers()))
            },
            Name::Run => two_names("run", "image", "ports", Some(steps())),
            Name::Means => two_names("means", "source", "ports", Some(turns())),
            Name::Exec => two_names("exec", "source", "ports", Some(steps())),
            Name::Layout => Table {
                second: None,
                two: Some(budget()),
                ..two_names("layout", "sequence", "", Some(registers()))
            },
            Name::Check => two_names("check", "image", "certificate", None),
            Name::Asm => two_names("asm", "text", "image", None),
            Name::Dis => Table {
                second: None,
                ..two_names("dis", "image", "", None)
            },
            Name::Gen => Table {
                first: None,
                second: None,
                ..two_names("gen", "", "", Some(program()))
            },
            Name::Debug => Table {
                third: Some("script"),
                ..two_names("debug", "image", "ports", None)
            },
            Name::Pre => two_names("pre", "source", "output", None),
            Name::Join => Table {
                second: None,
                rest: Some(sources()),
                ..two_names("join", "output", "", None)
            },
            Name::Pbuild => Table {
                third: Some("ports"),
                fourth: Some("image"),
                two: Some(budget()),
                three: Some(steps()),
                ..two_names("pbuild", "source", "first", Some(registers()))
            },
        }
    }

    /// What its values ask for.
    pub(crate) fn found<'a>(self, given: Given<'a>) -> Option<Request<'a>>
        ensures { option_map told result ≡ values_ask self (values_of_given given.entry) }
    {
        match self {
            Name::Build => build::found(&given),
            Name::Run => run::found(&given),
            Name::Means => means::found(&given),
            Name::Exec => exec::found(&given),
            Name::Layout => layout::found(&given),
            Name::Check => check::found(&given),
            Name::Asm => asm::found(&given),
            Name::Dis => dis::found(&given),
            Name::Gen => generated::found(&given),
            Name::Debug => debug::found(&given),
            Name::Pre => pre::found(&given),
            Name::Join => join::found(given),
            Name::Pbuild => pbuild::found(&given),
        }
    }
}

// A command of two names and at most a number.
fn two_names<'a>(
    name: &'a str,
    first: &'a str,
    second: &'a str,
    number: Option<Number<'a>>,
) -> Table<'a>
    ensures { options_of result ≡ tables.two_names name.now first.now second.now (option_map quantity_of number.entry) }
{
    Table {
        name,
        first: Some(first),
        second: Some(second),
        third: None,
        fourth: None,
        one: number,
        two: None,
        three: None,
        rest: None,
    }
}
