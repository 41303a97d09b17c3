//! How `clap` reads the words of a command.
ghost use Rattle.std.specs.Prelude.{◌≡◌, IfOk, option_map, false};
ghost use Rattle.clap.specs.Words.{app_of, rule_of};
ghost use Rattle.cc_options.specs.Options.{app_of_names, app_of_options, name_of, named, numbered, options_of, quantity_of, several_of, with_several};

use crate::table::{Form, Names, Number, Table};
use clap::builder::ValueParser;
use clap::{Arg, Command};
use std::alloc::{AllocError, Global};

// How it reads a number.
fn arg_of<'a>(alloc: Global, number: Number<'a>) -> Arg<'a>
    ensures rule { rule_of result ≡ (quantity_of number.entry).rule }
    ensures own { result.global ≡ false }
{
    let parser = ValueParser::unsigned(1, u64::from(number.greatest));
    let arg = Arg::new(alloc, number.id).value_parser(parser);
    match number.form {
        Form::Word => arg.required(true),
        Form::Long(usual) => arg.long(number.id).default_value(usual),
        Form::Letter(letter, usual) => arg.short(letter).default_value(usual),
    }
}

// The command with a name, if there is one, that has to be there.
fn with_name<'a>(
    alloc: Global,
    command: Command<'a>,
    name: Option<&'a str>,
) -> Result<Command<'a>, AllocError>
    ensures { IfOk result (λ c. app_of c ≡ named (option_map name_of name.entry) (app_of command.entry)) }
{
    match name {
        Some(id) => command.arg(Arg::new(alloc, id).required(true)),
        None => Ok(command),
    }
}

// The command with a number, if there is one.
fn with_number<'a>(
    alloc: Global,
    command: Command<'a>,
    number: Option<Number<'a>>,
) -> Result<Command<'a>, AllocError>
    ensures { IfOk result (λ c. app_of c ≡ numbered (option_map quantity_of number.entry) (app_of command.entry)) }
{
    match number {
        Some(number) => command.arg(arg_of(alloc, number)),
        None => Ok(command),
    }
}

// The command with names of which one has to be there, if it has any.
fn with_names<'a>(
    alloc: Global,
    command: Command<'a>,
    names: Option<Names<'a>>,
) -> Result<Command<'a>, AllocError>
    ensures { IfOk result (λ c. app_of c ≡ with_several (option_map several_of names.entry) (app_of command.entry)) }
{
    match names {
        Some(names) => {
            command.arg(
                Arg::new(alloc, names.id)
                    .required(true)
                    .num_args(1..=names.most),
            )
        }
        None => Ok(command),
    }
}

// The command of the names in front of its numbers.
fn command_of_names<'a>(alloc: Global, table: &Table<'a>) -> Result<Command<'a>, AllocError>
    ensures { IfOk result (λ c. app_of c ≡ app_of_names (options_of table.now)) }
{
    let command = Command::new(alloc, table.name);
    let command = with_name(alloc, command, table.first)?;
    let command = with_name(alloc, command, table.second)?;
    let command = with_name(alloc, command, table.third)?;
    with_name(alloc, command, table.fourth)
}

/// How it reads the words of a command.
pub(crate) fn command_of<'a>(alloc: Global, table: &Table<'a>) -> Result<Command<'a>, AllocError>
    ensures { IfOk result (λ c. app_of c ≡ app_of_options (options_of table.now)) }
{
    let command = command_of_names(alloc, table)?;
    let command = with_number(alloc, command, table.one)?;
    let command = with_number(alloc, command, table.two)?;
    let command = with_number(alloc, command, table.three)?;
    with_names(alloc, command, table.rest)
}
