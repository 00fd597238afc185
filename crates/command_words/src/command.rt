// A command, as the words after the program's name ask for it.
ghost use Rattle.std.specs.Prelude.{◌≡◌, IfOk, map, option_map};
ghost use Rattle.command_words.specs.Asked.{asked_by};
ghost use Rattle.command_words.specs.Words.{asked};

use crate::matched::other_command;
use crate::plain::plain_command;
use sd_names::NoMemory;
use std::alloc::Global;

/// What the program is to do. The moment is in seconds since 1970, where the words give one.
#[derive(Drop)]
pub enum Command<'a> {
    /// `session`: it runs the script that the source gives.
    Session {
        moment: Option<u64>,
    },
    /// `run`: it runs the script made of these lines, at least one.
    Run {
        moment: Option<u64>,
        lines: Vec<&'a str>,
    },
}

/// The command that the words after the program's name ask for; `None` where they ask for none.
///
/// Plain words are the command's word, then at most once `--moment N` or `--moment=N`, N of 1 to 20 decimal digits below
/// 2^64, and for `run` at least one line, each with at least one byte and none beginning with `-`. They have the command
/// and the values that stand there. Other words are read by `clap`'s function for the simple command of the table: `session
/// [--moment N]`, `run [--moment N] LINE..`; a request for help asks for no command.
pub fn read_words<'a>(alloc: Global, words: &'a [&'a str]) -> Result<Option<Command<'a>>, NoMemory>
    ensures { IfOk result (λ found. option_map asked_by found ≡ asked (map (λ word. word.now) words.now)) }
{
    match plain_command(alloc, words) {
        Ok(Some(command)) => Ok(Some(command)),
        Ok(None) => other_command(alloc, words),
        Err(NoMemory) => Err(NoMemory),
    }
}

impl Command<'_> {
    ghost use Rattle.std.specs.Prelude.{◌≡◌, unwrap_or};
    ghost use Rattle.command_words.specs.Asked.{asked_by, moment_of};

    /// The moment of what the command makes: the one that the words give, and else the clock's.
    pub fn moment(&self, clock: u64) -> u64
        ensures { result ≡ unwrap_or (moment_of (asked_by self.now)) clock }
    {
        match self {
            Command::Session { moment } => moment.unwrap_or(clock),
            Command::Run { moment, lines: _ } => moment.unwrap_or(clock),
        }
    }
}
