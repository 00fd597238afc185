// Other words, as `clap` reads them.
ghost use Rattle.std.specs.Prelude.{◌≡◌, IfOk, map, option_map};
ghost use Rattle.std.specs.Option.{option_and_then};
ghost use Rattle.clap.specs.Words.{found_of, rows_of, subcommand_rows_of};
ghost use Rattle.command_words.specs.Asked.{asked_by};
ghost use Rattle.command_words.specs.Words.{command_in, lines_in, matched, moment_in};

use crate::Command;
use crate::table::table;
use clap::ArgMatches;
use clap::error::ErrorKind;
use sd_names::NoMemory;
use std::alloc::Global;

/// The command of words, by `clap`'s function for the table.
#[tactic(auto, unfolding(crate::specs::Words::matched))]
pub fn other_command<'a>(
    alloc: Global,
    words: &'a [&'a str],
) -> Result<Option<Command<'a>>, NoMemory>
    ensures { IfOk result (λ found. option_map asked_by found ≡ matched (map (λ word. word.now) words.now)) }
{
    let table = match table(alloc) {
        Ok(table) => table,
        Err(_) => return Err(NoMemory),
    };
    match table.try_get_matches_from(words) {
        Ok(matches) => command_of(alloc, &matches),
        Err(error) => match error.kind() {
            ErrorKind::OutOfMemory => Err(NoMemory),
            _ => Ok(None),
        },
    }
}

/// The command of matches.
fn command_of<'a>(alloc: Global, matches: &ArgMatches<'a>) -> Result<Option<Command<'a>>, NoMemory>
    ensures { IfOk result (λ found. option_map asked_by found ≡ option_and_then command_in (subcommand_rows_of matches.now)) }
{
    match matches.subcommand() {
        Some((name, inner)) => command_named(alloc, name, inner),
        None => Ok(None),
    }
}

/// The command of a name and its matches.
fn command_named<'a>(
    alloc: Global,
    name: &str,
    matches: &ArgMatches<'a>,
) -> Result<Option<Command<'a>>, NoMemory>
    ensures { IfOk result (λ found. option_map asked_by found ≡ command_in (name.now, rows_of (found_of matches.now))) }
{
    if name == "session" {
        return Ok(Some(Command::Session {
            moment: moment_of(matches),
        }));
    }
    if name == "run" {
        return match lines_of(alloc, matches) {
            Ok(lines) => Ok(Some(Command::Run {
                moment: moment_of(matches),
                lines,
            })),
            Err(NoMemory) => Err(NoMemory),
        };
    }
    Ok(None)
}

/// The moment among matches.
fn moment_of(matches: &ArgMatches<'_>) -> Option<u64>
    ensures { result ≡ moment_in (rows_of (found_of matches.now)) }
{
    match matches.get_str("moment") {
        Some(text) => text.parse().ok(),
        None => None,
    }
}

/// The lines among matches.
fn lines_of<'a>(alloc: Global, matches: &ArgMatches<'a>) -> Result<Vec<&'a str>, NoMemory>
    ensures { IfOk result (λ lines. map (λ line. line.now) lines.items ≡ lines_in (rows_of (found_of matches.now))) }
{
    match matches.get_strs("line") {
        Some(lines) => match Vec::from_slice(alloc, lines) {
            Ok(lines) => Ok(lines),
            Err(_) => Err(NoMemory),
        },
        None => Ok(Vec::new(alloc)),
    }
}
