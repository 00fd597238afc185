// What runs a line of a session: the machine, the room in which it works, and the reply.
ghost use Rattle.std.specs.Prelude.{◌≡◌, ◌≤◌, ℕ, List, [], false, length, vec_len, vec_capacity};
ghost use Rattle.script_lines.specs.Event.{event_by, event_of};
ghost use Rattle.pool_session.specs.Answer.{outcome_for, read_count, IsPrintable};
ghost use Rattle.pool_session.specs.AnyDisk.{RunsOn};
ghost use Rattle.pool_session.specs.Request.{is_built, is_silent};
ghost use Rattle.pool_session.specs.Run.{IsOutcome, FindsNone};
ghost use Rattle.pool_session.specs.RunsAt.{RunsAt};

use crate::machine::Machine;
use crate::request::is_built;
use crate::stage::Stage;
use script_lines::{Line, MAX_DATA, REPLY_ROOM, Reply, event_of, push_reply};
use script_loop::{LineOutcome, LineRunner};
use sd_names::{NoMemory, Payload};
use shared_disk::SharedDisk;
use std::alloc::Global;

/// The machine, room for what a line writes and for what it reads, and the reply to the line that was run last.
#[derive(Drop)]
pub struct Session {
    machine: Machine,
    written: Vec<u8>,
    room: Vec<u8>,
    reply: Vec<u8>,
    ghost decodes: { vec_len written ≡ 65536 },
    ghost sized: { vec_len room ≡ 65536 },
    ghost reserved: { 200000 ≤ vec_capacity reply },
}

impl Session {
    ghost use Rattle.std.specs.Prelude.{◌≡◌, [], IfOk};

    /// A session before its first line: the host is off. It takes the memory that it will need.
    pub fn new(alloc: Global) -> Result<Session, NoMemory>
        ensures stage { IfOk result (λ session. session.machine.stage ≡ Stage.Off) }
        ensures reply { IfOk result (λ session. session.reply.items ≡ []) }
    {
        match (
            Machine::new(),
            Vec::from_elem(alloc, 0, MAX_DATA),
            Vec::from_elem(alloc, 0, MAX_DATA),
            Vec::with_capacity(alloc, REPLY_ROOM),
        ) {
            (Some(machine), Ok(written), Ok(room), Ok(reply)) => Ok(Session {
                machine,
                written,
                room,
                reply,
            }),
            _ => Err(NoMemory),
        }
    }
}

impl<D: SharedDisk> LineRunner<D> for Session {
    ghost use Rattle.pool_session.specs.Session.{SessionSays, kept_reply};

    ghost says = { SessionSays D.content D.faults };

    ghost reply_of = { kept_reply };

    fn line(&mut self, number: u64, text: &[u8], disk: &mut D) -> LineOutcome {
        self.reply.clear();
        run_line(
            &mut self.machine,
            number,
            text,
            &mut self.written,
            &mut self.room,
            &mut self.reply,
            disk,
        )
    }

    fn reply(&self) -> &[u8] {
        &self.reply
    }
}

/// Runs the line of a number, whose data is decoded into `written`, and pushes its reply into empty room, if it has one.
fn run_line<D: SharedDisk>(
    machine: &mut Machine,
    number: u64,
    text: &[u8],
    written: &mut [u8],
    room: &mut [u8],
    reply: &mut Vec<u8>,
    disk: &mut D,
) -> LineOutcome
    requires written { length written.old ≡ 65536 }
    requires room { length room.old ≡ 65536 }
    requires empty { reply.old.items ≡ [] }
    requires reserved { 200000 ≤ vec_capacity reply.old }
    ensures room { length room.new ≡ 65536 }
    ensures reserved { 200000 ≤ vec_capacity reply.new }
    ensures outcome { IsOutcome (event_of is_built text.now) result }
    ensures new { FindsNone (event_of is_built text.now) result (D.content disk.old) }
    ensures any { RunsOn D.content machine.old.stage disk.old number (event_of is_built text.now) result reply.new.items machine.new.stage disk.new }
    ensures ran { RunsAt machine.old.stage machine.new.stage (D.content disk.old) (D.content disk.new) (D.faults disk.old) (D.faults disk.new) number (event_of is_built text.now) result reply.new.items }
{
    let line = event_of(text, is_built, written);
    if is_silent(&line) {
        return LineOutcome::Silent;
    }
    answer(machine, number, &line, room, reply, disk)
}

/// Whether a line has no reply.
fn is_silent(line: &Line<'_>) -> bool
    ensures { result ≡ is_silent (event_by line.now) }
{
    matches!(line, Line::Silent)
}

/// Answers the line of a number, and pushes its reply into empty room.
fn answer<D: SharedDisk>(
    machine: &mut Machine,
    number: u64,
    line: &Line<'_>,
    room: &mut [u8],
    reply: &mut Vec<u8>,
    disk: &mut D,
) -> LineOutcome
    requires room { length room.old ≡ 65536 }
    requires empty { reply.old.items ≡ [] }
    requires reserved { 200000 ≤ vec_capacity reply.old }
    requires loud { false ≡ is_silent (event_by line.now) }
    ensures room { length room.new ≡ 65536 }
    ensures reserved { 200000 ≤ vec_capacity reply.new }
    ensures outcome { IsOutcome (event_by line.now) result }
    ensures new { FindsNone (event_by line.now) result (D.content disk.old) }
    ensures any { RunsOn D.content machine.old.stage disk.old number (event_by line.now) result reply.new.items machine.new.stage disk.new }
    ensures answered { RunsAt machine.old.stage machine.new.stage (D.content disk.old) (D.content disk.new) (D.faults disk.old) (D.faults disk.new) number (event_by line.now) result reply.new.items }
{
    let answer = machine.answer(line, room, disk);
    let count = read_count(&answer);
    push_reply(reply, number, &answer, &room[..count]);
    outcome(&answer)
}

/// How many bytes a reply hands out.
fn read_count(reply: &Reply) -> usize
    ensures { result ≡ read_count reply.now }
{
    match reply {
        Reply::Done(Payload::Read { length }) => *length as usize,
        _ => 0,
    }
}

/// What a reply makes of its line.
fn outcome(reply: &Reply) -> LineOutcome
    ensures { result ≡ outcome_for reply.now }
{
    match reply {
        Reply::Refused(_) => LineOutcome::Refused,
        _ => LineOutcome::Done,
    }
}
