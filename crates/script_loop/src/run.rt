// A whole script, from a source to a sink.
ghost use Rattle.std.specs.Prelude.{◌≡◌, ◌≢◌, ◌+◌, ◌<◌, ◌≤◌, ◌^◌, ℕ, List, [], Option, take, length, vec_len, IfOk};
ghost use Rattle.script_loop.specs.Ends.{Ends, Finishes, SourceFaults, SinkFaults};
ghost use Rattle.script_loop.specs.Line.{Holds};
ghost use Rattle.script_loop.specs.Progress.{Counted, Progress};

use crate::line::Line;
use crate::session::{MAX_INPUT, Session};
use crate::tally::Tally;
use crate::{LineRunner, Sink, Source, Status};
use sd_names::NoMemory;
use std::alloc::Global;

/// The bytes of a piece of the script.
const PIECE: usize = 65_536;

/// The memory that a script needs: a piece of 65,536 bytes, and a line of 200,001.
#[derive(Drop)]
pub struct Room {
    line: Line,
    piece: Vec<u8>,
    ghost sized: { vec_len piece ≡ 65536 },
}

impl Room {
    /// Takes the memory.
    pub fn new(alloc: Global) -> Result<Room, NoMemory> {
        match (Line::new(alloc), Vec::from_elem(alloc, 0, PIECE)) {
            (Ok(line), Ok(piece)) => Ok(Room { line, piece }),
            _ => Err(NoMemory),
        }
    }
}

/// How a script ended.
#[derive(Clone, Copy, Debug, PartialEq, Eq)]
pub struct Ended {
    /// How it ended.
    pub status: Status,
    /// How many lines were refused.
    pub refused: u64,
}

/// Runs the script that a source gives, and gives the replies to a sink.
///
/// The lines end at LF, and the last one may lack it. Each is run as soon as it is complete, and its reply is given before
/// more of the script is read. A line of more than 200,000 bytes is handed over as its first 200,001. At most 67,108,865 bytes
/// are taken, and lines of at most 67,108,864 are run. A read or a write that fails ends the script.
///
/// It takes no memory beside the room.
pub fn run_script<D, L: LineRunner<D>, S: Source, K: Sink>(
    room: Room,
    runner: &mut L,
    disk: &mut D,
    source: &mut S,
    sink: &mut K,
) -> Ended
    ensures source_faults { SourceFaults result.status (S.faults source.old) (S.faults source.new) }
    ensures sink_faults { SinkFaults result.status (K.faults sink.old) (K.faults sink.new) }
    ensures ends { Ends L.says L.reply_of result.status result.refused runner.old disk.old (S.left source.old) (S.left source.new) (K.given sink.old) (K.given sink.new) runner.new disk.new }
{
    let mut piece = room.piece;
    let mut session = Session::new(room.line);
    run_pieces(&mut session, &mut piece, runner, disk, source, sink)
}

/// Runs a script piece by piece.
fn run_pieces<D, L: LineRunner<D>, S: Source, K: Sink>(
    session: &mut Session,
    piece: &mut [u8],
    runner: &mut L,
    disk: &mut D,
    source: &mut S,
    sink: &mut K,
) -> Ended
    requires room { length piece.old ≡ 65536 }
    requires taken { session.old.taken ≡ 0 }
    requires answered { session.old.answered ≡ 0 }
    requires empty { Holds session.old.line [] }
    requires counted { Counted session.old.tally 0 [] }
    ensures source_faults { SourceFaults result.status (S.faults source.old) (S.faults source.new) }
    ensures sink_faults { SinkFaults result.status (K.faults sink.old) (K.faults sink.new) }
    ensures ends { Ends L.says L.reply_of result.status result.refused runner.old disk.old (S.left source.old) (S.left source.new) (K.given sink.old) (K.given sink.new) runner.new disk.new }
{
    while session.taken <= MAX_INPUT {
        let count = match session.read(source, piece) {
            Ok(count) => count,
            Err(_) => return told(Status::ReadFault, &session.tally),
        };
        if count == 0 {
            return end_script(session, runner, disk, sink);
        }
        let kept = count.min(MAX_INPUT - session.taken);
        session.taken += count;
        match session.feed(front(piece, kept), runner, disk, sink) {
            Ok(()) => {}
            Err(_) => return told(Status::WriteFault, &session.tally),
        }
    }
    told(Status::TooLong, &session.tally)
}

/// Ends a script whose input has ended.
fn end_script<D, L: LineRunner<D>, K: Sink>(
    session: &mut Session,
    runner: &mut L,
    disk: &mut D,
    sink: &mut K,
) -> Ended
    requires few { session.old.tally.lines + 1 < 2 ^ 64 }
    ensures sink_faults { SinkFaults result.status (K.faults sink.old) (K.faults sink.new) }
    ensures others { (result.status ≢ Status.ReadFault) × (result.status ≢ Status.TooLong) × (result.status ≢ Status.Words) }
    ensures finished { (m : L) (d : D) (bytes : List ℕ) (given : Option (List ℕ))
        → Progress L.says L.reply_of m d bytes given (K.given sink.old) session.old.line session.old.tally runner.old disk.old
        → Finishes L.says L.reply_of result.status result.refused m d bytes given (K.given sink.new) runner.new disk.new }
{
    match session.finish(runner, disk, sink) {
        Ok(()) => told(session.tally.status(), &session.tally),
        Err(_) => told(Status::WriteFault, &session.tally),
    }
}

/// A status, with the number of refused lines.
fn told(status: Status, tally: &Tally) -> Ended
    ensures status { result.status ≡ status }
    ensures refused { result.refused ≡ tally.now.refused }
{
    Ended {
        status,
        refused: tally.refused,
    }
}

/// So many bytes at the front of a piece.
fn front(piece: &[u8], count: usize) -> &[u8]
    requires { count ≤ length piece.now }
    ensures front { result.now ≡ take count piece.now }
    ensures length { length result.now ≡ count }
{
    &piece[..count]
}
