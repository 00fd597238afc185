// What no clause says: whole scripts through streams in memory, with what runs a line, a source and a sink of the test's own.
ghost use Rattle.std.specs.Prelude.{◌≤◌, None, vec_capacity};

use crate::{
    LineOutcome, LineRunner, MemorySink, MemorySource, Room, Script, Sink, Source, Status,
    run_script,
};
use sd_names::{Failed, push_all, push_number};
use std::alloc::Global;
use std::test::Fail;

// Replies with a line's number and its length. `#` begins a silent line, `x` one that is refused, and `m` one that finds no
// memory.
#[derive(Drop)]
struct Lengths {
    reply: Vec<u8>,
    ghost reserved: { 64 ≤ vec_capacity reply },
}

impl LineRunner<u64> for Lengths {
    ghost says = { λ before d number text outcome after e. Unit {0} };

    ghost reply_of = { λ lengths. lengths.reply.items };

    fn line(&mut self, number: u64, text: &[u8], disk: &mut u64) -> LineOutcome {
        *disk = number;
        self.reply.clear();
        push_number(&mut self.reply, number);
        push_all(&mut self.reply, b" ");
        push_number(&mut self.reply, text.len() as u64);
        push_all(&mut self.reply, b"\n");
        match text.first() {
            Some(b'#') => LineOutcome::Silent,
            Some(b'x') => LineOutcome::Refused,
            Some(b'm') => LineOutcome::Memory,
            _ => LineOutcome::Done,
        }
    }

    fn reply(&self) -> &[u8] {
        &self.reply
    }
}

// How the source and the sink of a script are made: at most so many bytes a read, the read and the write that fail, and the
// sink's room.
#[derive(Clone, Copy, Debug)]
struct Streams {
    piece: usize,
    read: u64,
    write: u64,
    room: usize,
}

// No call fails, and there is room.
const SOUND: Streams = Streams {
    piece: 65_536,
    read: 1_000_000,
    write: 1_000_000,
    room: 4096,
};

// How a script of these bytes ends, how many lines it refuses, how many it ran, and whether it gave these replies.
fn ends(
    alloc: Global,
    input: Vec<u8>,
    streams: Streams,
    replies: &str,
) -> Result<(Status, u64, u64, bool), Fail> {
    let pieces = Vec::from_elem(alloc, streams.piece, 2000)?;
    let mut source = MemorySource::new(input, pieces, [streams.read].to_vec(alloc)?);
    let mut sink = MemorySink::new(alloc, streams.room, [streams.write].to_vec(alloc)?)?;
    let mut runner = Lengths {
        reply: Vec::with_capacity(alloc, 64)?,
    };
    let mut ran = 0;
    let room = Room::new(alloc)?;
    let ended = run_script(room, &mut runner, &mut ran, &mut source, &mut sink);
    let same = sink.bytes() == replies.as_bytes();
    Ok((ended.status, ended.refused, ran, same))
}

#[test]
fn scripts_and_their_ends(rt: HostRuntime) -> Result<(), Fail> {
    let alloc = rt.alloc();
    let byte = Streams { piece: 1, ..SOUND };
    let full = Streams { room: 6, ..SOUND };
    let read = Streams {
        piece: 4,
        read: 1,
        ..SOUND
    };
    let table: [(&str, Streams, Status, u64, u64, &str); 12] = [
        ("", SOUND, Status::Done, 0, 0, ""),
        ("\n", SOUND, Status::Done, 0, 1, "1 0\n"),
        ("a\n#b\nccc", SOUND, Status::Done, 0, 3, "1 1\n3 3\n"),
        ("a\n#b\nccc", byte, Status::Done, 0, 3, "1 1\n3 3\n"),
        ("x\na\nx", byte, Status::Refused, 2, 3, "1 1\n2 1\n3 1\n"),
        ("m\nx\n", SOUND, Status::Memory, 2, 2, "1 1\n2 1\n"),
        ("a\nxx\nx\n", read, Status::ReadFault, 0, 1, "1 1\n"),
        ("a\nx\nb\n", full, Status::WriteFault, 1, 2, "1 1\n2 "),
        ("a\nx", full, Status::WriteFault, 1, 2, "1 1\n2 "),
        (
            "a\nx\nb\n",
            Streams { write: 0, ..SOUND },
            Status::WriteFault,
            0,
            1,
            "",
        ),
        (
            "#\nx\nb\n",
            Streams { write: 1, ..SOUND },
            Status::WriteFault,
            1,
            3,
            "2 1\n",
        ),
        (
            "m\nb",
            Streams { write: 1, ..SOUND },
            Status::WriteFault,
            1,
            2,
            "1 1\n",
        ),
    ];
    for (input, streams, status, refused, ran, replies) in table {
        let bytes = input.as_bytes().to_vec(alloc)?;
        let ended = ends(alloc, bytes, streams, replies)?;
        assert_eq!(rt;
            ended,
            (status, refused, ran, true),
            "{input:?} {streams:?}"
        );
    }
    Ok(())
}

// A long line is handed over as its first 200,001 bytes, and one line of 64 MiB is all that a script may have.
#[test]
fn long_lines_and_the_most_input(rt: HostRuntime) -> Result<(), Fail> {
    let alloc = rt.alloc();
    let table = [
        (b'a', 200_000, Status::Done, "1 200000\n"),
        (b'a', 200_001, Status::Done, "1 200001\n"),
        (b'a', 67_108_864, Status::Done, "1 200001\n"),
        (b'a', 67_108_865, Status::TooLong, ""),
    ];
    for (byte, length, status, replies) in table {
        let input = Vec::from_elem(alloc, byte, length)?;
        let ended = ends(alloc, input, SOUND, replies)?;
        assert!(rt; ended.0 == status && ended.3, "{length}");
    }
    Ok(())
}

// Makes its script as it is read: so many bytes, each an LF.
#[derive(Drop)]
struct EmptyLines(u64);

impl Source for EmptyLines {
    ghost left = { λ _. None };

    ghost faults = { λ _. 0 };

    fn read(&mut self, into: &mut [u8]) -> Result<usize, Failed> {
        match into.first_mut() {
            Some(first) if self.0 > 0 => {
                *first = b'\n';
                self.0 -= 1;
                Ok(1)
            }
            _ => Ok(0),
        }
    }
}

// Keeps a sum of the bytes that it is given, one a write.
#[derive(Drop)]
struct ByteSum(u64);

impl Sink for ByteSum {
    ghost given = { λ _. None };

    ghost faults = { λ _. 0 };

    fn write(&mut self, piece: &[u8]) -> Result<usize, Failed> {
        match piece.first() {
            Some(byte) => {
                self.0 = self.0.saturating_add(u64::from(*byte));
                Ok(1)
            }
            None => Ok(0),
        }
    }
}

#[test]
fn other_sources_and_sinks(rt: HostRuntime) -> Result<(), Fail> {
    let alloc = rt.alloc();
    let mut runner = Lengths {
        reply: Vec::with_capacity(alloc, 64)?,
    };
    let mut ran = 0;
    let mut sum = ByteSum(0);
    let mut source = EmptyLines(2);
    let room = Room::new(alloc)?;
    let ended = run_script(room, &mut runner, &mut ran, &mut source, &mut sum);
    // "1 0\n2 0\n"
    assert!(rt; ended.status == Status::Done && ran == 2 && sum.0 == 279);
    let mut script = Script::of_lines(alloc, &["a", "bb"])?;
    let mut sink = MemorySink::new(alloc, 8, Vec::new(alloc))?;
    let room = Room::new(alloc)?;
    let ended = run_script(room, &mut runner, &mut ran, &mut script, &mut sink);
    assert!(rt; ended.status == Status::Done && sink.bytes() == "1 1\n2 2\n".as_bytes());
    Ok(())
}
