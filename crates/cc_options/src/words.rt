//! The words of a command line.
ghost use Rattle.std.specs.Prelude.{◌≡◌, IfOk, MatchOption, option_map, true, false};
ghost use Rattle.clap.specs.Words.{app_of, found_of, is_simple_and_free, matches_of, rows_of};
ghost use Rattle.cc_options.specs.Options.{app_of_options, is_taken, options_of, texts_of, values_of, values_of_given};

use crate::command::command_of;
use crate::given::{Given, held};
use crate::table::Table;
use clap::error::ErrorKind;
use clap::{ArgMatches, Command};
use std::alloc::Global;
use word_base::NoMemory;

// The matches of a command on the words, of which the first is its name, or `None` where it refuses them.
fn matched<'a>(
    command: Command<'a>,
    words: &'a [String],
) -> Result<Option<ArgMatches<'a>>, NoMemory>
    requires { is_simple_and_free (app_of command) ≡ true }
    ensures { IfOk result (λ r. MatchOption r
        (is_taken (app_of command.entry) (texts_of words.entry.now) ≡ false)
        (λ m. (is_taken (app_of command.entry) (texts_of words.entry.now) ≡ true)
        × (rows_of (found_of m) ≡ matches_of (app_of command.entry) (texts_of words.entry.now)))) }
{
    match command.try_get_matches_from(words) {
        Ok(matches) => Ok(Some(matches)),
        Err(error) => {
            if matches!(error.kind(), ErrorKind::OutOfMemory) {
                return Err(NoMemory);
            }
            Ok(None)
        }
    }
}

/// What the words give a command, of which the first is its name, or `None` where `clap` refuses them.
pub fn read<'a>(
    alloc: Global,
    table: &Table<'a>,
    words: &'a [String],
) -> Result<Option<Given<'a>>, NoMemory>
    requires { is_simple_and_free (app_of_options (options_of table.now)) ≡ true }
    ensures { IfOk result (λ r. option_map values_of_given r ≡ values_of (options_of table.now) (texts_of words.entry.now)) }
{
    match matched(command_of(alloc, table)?, words)? {
        Some(matches) => Ok(Some(held(alloc, &matches, table)?)),
        None => Ok(None),
    }
}
