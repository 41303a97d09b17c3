//! What words give a command.
ghost use Rattle.std.specs.Prelude.{◌≡◌, IfOk, option_and_then, option_map};
ghost use Rattle.clap.specs.Words.{first_of, found_of, rows_of};
ghost use Rattle.cc_options.specs.Options.{name_of, names_in, names_of, number_in, options_of, quantity_of, several_of, values_in, values_of_given, within};

use crate::table::{Names, Number, Table};
use clap::ArgMatches;
use std::alloc::Global;
use word_base::NoMemory;

/// What words give a command, in the order of its table; `None` where the table has none.
#[derive(Drop)]
pub struct Given<'a> {
    /// The first name.
    pub first: Option<&'a str>,
    /// The second name.
    pub second: Option<&'a str>,
    /// The third name.
    pub third: Option<&'a str>,
    /// The fourth name.
    pub fourth: Option<&'a str>,
    /// The first number.
    pub one: Option<u32>,
    /// The second number.
    pub two: Option<u32>,
    /// The third number.
    pub three: Option<u32>,
    /// The names behind these.
    pub rest: Option<Vec<&'a str>>,
}

// What the matches hold as this name.
fn name_in<'a>(matches: &ArgMatches<'a>, name: Option<&'a str>) -> Option<&'a str>
    ensures { option_map name_of result
        ≡ option_and_then (λ id. first_of id (rows_of (found_of matches.now))) (option_map name_of name.entry) }
{
    matches.get_str(name?)
}

// The number, if it is from 1 to the greatest.
fn within(number: u64, greatest: u32) -> Option<u32>
    ensures { result ≡ within greatest number }
{
    if 1 <= number && number <= u64::from(greatest) {
        Some(number as u32)
    } else {
        None
    }
}

// What they hold as this number.
fn number_in<'a>(matches: &ArgMatches<'a>, number: Option<Number<'a>>) -> Option<u32>
    ensures { result ≡ option_and_then (number_in (rows_of (found_of matches.now))) (option_map quantity_of number.entry) }
{
    let number = number?;
    within(matches.get_one::<u64>(number.id)?, number.greatest)
}

// What they hold as these names, if they are from one to the most that there may be.
fn names_in<'a>(
    alloc: Global,
    matches: &ArgMatches<'a>,
    names: Option<Names<'a>>,
) -> Result<Option<Vec<&'a str>>, NoMemory>
    ensures { IfOk result (λ r. option_map names_of r
        ≡ option_and_then (names_in (rows_of (found_of matches.now))) (option_map several_of names.entry)) }
{
    let Some(names) = names else {
        return Ok(None);
    };
    let Some(found) = matches.get_strs(names.id) else {
        return Ok(None);
    };
    if found.is_empty() || found.len() > names.most {
        return Ok(None);
    }
    Ok(Some(Vec::from_slice(alloc, found)?))
}

/// What the matches hold.
pub(crate) fn held<'a>(
    alloc: Global,
    matches: &ArgMatches<'a>,
    table: &Table<'a>,
) -> Result<Given<'a>, NoMemory>
    ensures { IfOk result (λ given. values_of_given given ≡ values_in (options_of table.now) (rows_of (found_of matches.now))) }
{
    let rest = names_in(alloc, matches, table.rest)?;
    Ok(Given {
        first: name_in(matches, table.first),
        second: name_in(matches, table.second),
        third: name_in(matches, table.third),
        fourth: name_in(matches, table.fourth),
        one: number_in(matches, table.one),
        two: number_in(matches, table.two),
        three: number_in(matches, table.three),
        rest,
    })
}
