// What a line of a script says.
ghost use Rattle.std.specs.Prelude.{◌≡◌, ◌≤◌, ◌∷◌, [], IfSome, MatchOption, length};
ghost use Rattle.std.specs.List.{list_all};
ghost use Rattle.script_lines.specs.Words.{words};
ghost use Rattle.script_lines.specs.Argument.{number, number_in, values_of};
ghost use Rattle.script_lines.specs.Verbs.{kinds_of};
ghost use Rattle.script_lines.specs.VerbWord.{verb_of};
ghost use Rattle.script_lines.specs.Said.{event, refused, has_words, stepped, beginning, calling, told, words_said, is_printable, spoken, values_read, spoken_by, IsNamed, NamesItsVerb};

use crate::arguments::Arguments;
use crate::values::read_number;
use crate::verbs::read_verb;
use crate::{VerbWord, take_word, verb_word};
use sd_names::{HostId, Refusal, Verb};

/// The most bytes that a line may have.
pub const MAX_LINE: usize = 200_000;

/// What a line says before it is known which verbs are built.
#[derive(Clone, Copy, Debug)]
pub enum Said<'a> {
    /// Nothing: the line is empty or a remark.
    Silent,
    /// The line is refused.
    Refused(Refusal),
    /// `H boot`
    Boot(HostId),
    /// `H down`
    Down(HostId),
    /// `H step N`, N of 1 to 1,000,000.
    Step(HostId, u32),
    /// `H end`
    End(HostId),
    /// `H VERB ARGS`, or `H begin VERB ARGS` where it isn't whole: the verb, or why its arguments are refused.
    Call {
        is_whole: bool,
        host: HostId,
        name: VerbWord,
        verb: Result<Verb<'a>, Refusal>,
    },
}

/// What a line says, without its line end. `room` is room for 65,536 bytes, into which the data of a `write` is
/// decoded.
#[tactic(auto, unfolding(crate::specs::Said::spoken))]
pub fn read_line<'a>(line: &'a [u8], room: &'a mut [u8]) -> Said<'a>
    requires { length room.old ≡ 65536 }
    ensures says { spoken_by result ≡ spoken line.now }
    ensures named { NamesItsVerb result }
{
    if line.is_empty() {
        return Said::Silent;
    }
    if line[0] == b'#' {
        return Said::Silent;
    }
    if line.len() > MAX_LINE {
        return Said::Refused(Refusal::LineTooLong);
    }
    if !are_printable(line) {
        return Said::Refused(Refusal::BadLine);
    }
    read_words(line, room)
}

/// Whether each byte of a line is one of 20 to 7E hexadecimal.
fn are_printable(line: &[u8]) -> bool
    ensures { result ≡ list_all is_printable line.now }
{
    line.iter().all(|byte| 32 <= *byte && *byte <= 126)
}

/// What the words of a line say.
fn read_words<'a>(line: &'a [u8], room: &'a mut [u8]) -> Said<'a>
    requires room { length room.old ≡ 65536 }
    requires short { length line.now ≤ MAX_LINE }
    ensures says { spoken_by result ≡ words_said (words line.now) }
    ensures named { NamesItsVerb result }
{
    match split_line(line) {
        Some((host, word, rest)) => read_told(host, word, rest, room),
        None => Said::Refused(Refusal::BadLine),
    }
}

/// The host of a line, its second word, and what follows that.
fn split_line<'a>(line: &'a [u8]) -> Option<(HostId, &'a [u8], &'a [u8])>
    ensures told { MatchOption result
        (words_said (words line.now) ≡ event (refused Refusal.BadLine))
        (λ parts. words_said (words line.now) ≡ told parts.0 parts.1.now (words parts.2.now)) }
    ensures shorter { IfSome result (λ parts. length parts.2.now ≤ length line.now) }
{
    let (first, behind) = take_word(line)?;
    let (word, rest) = take_word(behind)?;
    let host = read_host(first)?;
    Some((host, word, rest))
}

/// The host of a word.
fn read_host(word: &[u8]) -> Option<HostId>
    ensures { result ≡ number_in 1 250 word.now }
{
    let number = read_number(word, 1, 250)?;
    match HostId::new(number) {
        Some(host) => Some(host),
        None => None,
    }
}

/// What a host is told.
#[tactic(auto, unfolding(crate::specs::Said::told))]
fn read_told<'a>(host: HostId, word: &[u8], rest: &'a [u8], room: &'a mut [u8]) -> Said<'a>
    requires room { length room.old ≡ 65536 }
    requires short { length rest.now ≤ MAX_LINE }
    ensures says { spoken_by result ≡ told host word.now (words rest.now) }
    ensures named { NamesItsVerb result }
{
    if word == b"boot".as_slice() {
        return if has_words(rest) {
            Said::Refused(Refusal::BadArgument(1))
        } else {
            Said::Boot(host)
        };
    }
    if word == b"down".as_slice() {
        return if has_words(rest) {
            Said::Refused(Refusal::BadArgument(1))
        } else {
            Said::Down(host)
        };
    }
    if word == b"end".as_slice() {
        return if has_words(rest) {
            Said::Refused(Refusal::BadArgument(1))
        } else {
            Said::End(host)
        };
    }
    if word == b"step".as_slice() {
        return read_step(host, rest);
    }
    if word == b"begin".as_slice() {
        return read_begin(host, rest, room);
    }
    read_call(true, host, word, rest, room)
}

/// Whether a text has a word.
fn has_words(text: &[u8]) -> bool
    ensures { result ≡ has_words (words text.now) }
{
    match take_word(text) {
        Some(_) => true,
        None => false,
    }
}

/// `H step N`
fn read_step<'a>(host: HostId, rest: &'a [u8]) -> Said<'a>
    requires { length rest.now ≤ MAX_LINE }
    ensures says { spoken_by result ≡ event (stepped host (values_of (number 1 1000000 ∷ []) 1 (words rest.now))) }
    ensures named { NamesItsVerb result }
{
    let mut args = Arguments { rest, place: 1 };
    match args.number(1, 1_000_000) {
        Some(count) => {
            if has_words(args.rest) {
                Said::Refused(Refusal::BadArgument(args.place))
            } else {
                Said::Step(host, count as u32)
            }
        }
        None => Said::Refused(Refusal::BadArgument(args.place)),
    }
}

/// `H begin VERB ARGS`
fn read_begin<'a>(host: HostId, rest: &'a [u8], room: &'a mut [u8]) -> Said<'a>
    requires room { length room.old ≡ 65536 }
    requires short { length rest.now ≤ MAX_LINE }
    ensures says { spoken_by result ≡ beginning host (words rest.now) }
    ensures named { NamesItsVerb result }
{
    match take_word(rest) {
        Some((word, args)) => read_call(false, host, word, args, room),
        None => Said::Refused(Refusal::UnknownVerb),
    }
}

/// A verb with its arguments.
fn read_call<'a>(
    is_whole: bool,
    host: HostId,
    word: &[u8],
    rest: &'a [u8],
    room: &'a mut [u8],
) -> Said<'a>
    requires room { length room.old ≡ 65536 }
    requires short { length rest.now ≤ MAX_LINE }
    ensures says { spoken_by result ≡ calling is_whole host (verb_of word.now) (words rest.now) }
    ensures named { NamesItsVerb result }
{
    match verb_word(word) {
        Some(name) => Said::Call {
            is_whole,
            host,
            name,
            verb: read_arguments(name, rest, room),
        },
        None => Said::Refused(Refusal::UnknownVerb),
    }
}

/// The arguments of a verb, and no more.
fn read_arguments<'a>(
    name: VerbWord,
    rest: &'a [u8],
    room: &'a mut [u8],
) -> Result<Verb<'a>, Refusal>
    requires room { length room.old ≡ 65536 }
    requires short { length rest.now ≤ MAX_LINE }
    ensures values { values_read result ≡ values_of (kinds_of name) 1 (words rest.now) }
    ensures named { IsNamed name result }
{
    let mut args = Arguments { rest, place: 1 };
    match read_verb(name, &mut args, room) {
        Some(verb) => {
            if has_words(args.rest) {
                Err(Refusal::BadArgument(args.place))
            } else {
                Ok(verb)
            }
        }
        None => Err(Refusal::BadArgument(args.place)),
    }
}
