// The event of a line, once it is known which verbs are built.
ghost use Rattle.std.specs.Prelude.{◌≡◌, Bool, length};
ghost use Rattle.script_lines.specs.Event.{event_of, event_by};
ghost use Rattle.script_lines.specs.declared.verb_names.VerbWord.{VerbWord};

use crate::{Said, VerbWord, read_line};
use sd_names::{HostId, Refusal, Verb};

/// A line's event, or nothing, or why it is refused.
#[derive(Clone, Copy, Debug)]
pub enum Line<'a> {
    /// Nothing: the line is empty or a remark.
    Silent,
    /// The line is refused.
    Refused(Refusal),
    /// `H boot`
    Boot(HostId),
    /// `H down`
    Down(HostId),
    /// `H step N`, N of 1 to 1,000,000.
    Step(HostId, u32),
    /// `H end`
    End(HostId),
    /// `H begin VERB ARGS`
    Begin(HostId, Verb<'a>),
    /// `H VERB ARGS`
    Whole(HostId, Verb<'a>),
}

/// The event of a line without its line end. `is_built` says which verbs are built: another one is refused as
/// unknown. `room` is room for 65,536 bytes, into which the data of a `write` is decoded.
pub fn event_of<'a, F: Fn(VerbWord) -> bool>(
    line: &'a [u8],
    is_built: F,
    room: &'a mut [u8],
) -> Line<'a>
    requires callable { F.IsAlwaysCallable is_built }
    requires room { length room.old ≡ 65536 }
    ensures { (built : VerbWord → Bool)
        → ((verb : VerbWord) (answer : Bool) → F.post is_built verb answer → answer ≡ built verb)
        → event_by result ≡ event_of built line.now }
{
    match read_line(line, room) {
        Said::Silent => Line::Silent,
        Said::Refused(refusal) => Line::Refused(refusal),
        Said::Boot(host) => Line::Boot(host),
        Said::Down(host) => Line::Down(host),
        Said::Step(host, count) => Line::Step(host, count),
        Said::End(host) => Line::End(host),
        Said::Call {
            is_whole,
            host,
            name,
            verb,
        } => {
            if !is_built(name) {
                return Line::Refused(Refusal::UnknownVerb);
            }
            match verb {
                Ok(verb) => {
                    if is_whole {
                        Line::Whole(host, verb)
                    } else {
                        Line::Begin(host, verb)
                    }
                }
                Err(refusal) => Line::Refused(refusal),
            }
        }
    }
}
