// Plain words: a command as it stands.
ghost use Rattle.std.specs.Prelude.{◌≡◌, Some, IfOk, map, option_map};
ghost use Rattle.std.specs.List.{list_all};
ghost use Rattle.std.specs.Str.{bytes_eq};
ghost use Rattle.command_words.specs.Asked.{asked_by, run};
ghost use Rattle.command_words.specs.Words.{are_lines, is_line, moment_at, moment_before, moment_behind, plain, plain_with};

use crate::Command;
use decimal_numbers::number;
use sd_names::NoMemory;
use std::alloc::Global;

/// The option's word where its number is the next one.
const MOMENT: &[u8] = b"--moment";

/// What stands before the number where it is in the same word.
const MOMENT_IS: &[u8] = b"--moment=";

/// The command of plain words.
#[tactic(auto, unfolding(crate::specs::Words::plain))]
pub fn plain_command<'a>(alloc: Global, words: &[&'a str]) -> Result<Option<Command<'a>>, NoMemory>
    ensures { IfOk result (λ found. option_map asked_by found ≡ plain (map (λ word. word.now) words.now)) }
{
    match words.split_first() {
        Some((name, rest)) => match moment_at(rest) {
            Some((moment, behind)) => command_with(alloc, name, moment, behind),
            None => Ok(None),
        },
        None => Ok(None),
    }
}

/// The command of a name, with a moment and the words behind it.
fn command_with<'a>(
    alloc: Global,
    name: &str,
    moment: Option<u64>,
    rest: &[&'a str],
) -> Result<Option<Command<'a>>, NoMemory>
    ensures { IfOk result (λ found. option_map asked_by found ≡ plain_with name.now moment (map (λ word. word.now) rest.now)) }
{
    if name == "session" {
        return if rest.is_empty() {
            Ok(Some(Command::Session { moment }))
        } else {
            Ok(None)
        };
    }
    if name == "run" && are_lines(rest) {
        return run_lines(alloc, moment, rest);
    }
    Ok(None)
}

/// A run of lines.
fn run_lines<'a>(
    alloc: Global,
    moment: Option<u64>,
    lines: &[&'a str],
) -> Result<Option<Command<'a>>, NoMemory>
    ensures { IfOk result (λ found. option_map asked_by found ≡ Some (run moment (map (λ line. line.now) lines.now))) }
{
    match Vec::from_slice(alloc, lines) {
        Ok(lines) => Ok(Some(Command::Run { moment, lines })),
        Err(_) => Err(NoMemory),
    }
}

/// The moment at the front of words, if the option stands there, and the words behind it. `None` where the option has
/// no number.
fn moment_at<'b, 'a>(words: &'b [&'a str]) -> Option<(Option<u64>, &'b [&'a str])>
    ensures { option_map (λ found. (found.0, map (λ word. word.now) found.1.now)) result ≡ moment_at (map (λ word. word.now) words.now) }
{
    match words.split_first() {
        Some((word, rest)) => {
            let word = word.as_bytes();
            if word == MOMENT {
                return moment_behind(rest);
            }
            match word.strip_prefix(MOMENT_IS) {
                Some(text) => moment_before(rest, text),
                None => Some((None, words)),
            }
        }
        None => Some((None, words)),
    }
}

/// The moment in the first word, and the words behind it.
fn moment_behind<'b, 'a>(words: &'b [&'a str]) -> Option<(Option<u64>, &'b [&'a str])>
    ensures { option_map (λ found. (found.0, map (λ word. word.now) found.1.now)) result ≡ moment_behind (map (λ word. word.now) words.now) }
{
    match words.split_first() {
        Some((text, rest)) => moment_before(rest, text.as_bytes()),
        None => None,
    }
}

/// The moment of a text, before other words.
fn moment_before<'b, 'a>(rest: &'b [&'a str], text: &[u8]) -> Option<(Option<u64>, &'b [&'a str])>
    ensures { option_map (λ found. (found.0, map (λ word. word.now) found.1.now)) result ≡ moment_before (map (λ word. word.now) rest.now) text.now }
{
    match number(text) {
        Some(moment) => Some((Some(moment), rest)),
        None => None,
    }
}

/// Whether these are lines, at least one.
fn are_lines(words: &[&str]) -> bool
    ensures { result ≡ are_lines (map (λ word. word.now) words.now) }
{
    !words.is_empty() && all_lines(words)
}

/// Whether each word is a line.
fn all_lines(words: &[&str]) -> bool
    ensures { result ≡ list_all is_line (map (λ word. word.now) words.now) }
{
    for word in words {
        if !is_line(word) {
            return false;
        }
    }
    true
}

/// Whether a word is a line: it has bytes, and doesn't begin as an option does.
fn is_line(word: &str) -> bool
    ensures { result ≡ is_line word.now }
{
    match word.as_bytes().first() {
        Some(first) => *first != b'-',
        None => false,
    }
}
