// What no clause says: whole scripts over a disk in memory, with a disk, a source and a sink that fail.
ghost use Rattle.std.specs.Prelude.{None};
ghost use Rattle.script_loop.specs.Memory.{sink_faults};

use memory_disk::Memory;
use pool_session::vdsm;
use script_loop::{MemorySink, MemorySource, Sink, Status};
use sd_names::{Dir, Failed, HostId, Id, Name, Place};
use shared_disk::SharedDisk;
use std::alloc::Global;
use std::test::Fail;

// A script in which every line is answered.
const SCRIPT: &str = "\
1 boot
# a comment and an empty line have no reply

1 make-pool 00000000-0000-4000-8000-000000000001 00000000-0000-4000-8000-000000000002 5 -
1 spm-start 00000000-0000-4000-8000-000000000002 0 0
1 create 00000000-0000-4000-8000-000000000201 00000000-0000-4000-8000-000000000002 00000000-0000-4000-8000-000000000003 00000000-0000-4000-8000-000000000101 RAW SPARSE 1024 -
1 open 00000000-0000-4000-8000-000000000002 00000000-0000-4000-8000-000000000003
1 write 00000000-0000-4000-8000-000000000002 00000000-0000-4000-8000-000000000003 512 512*41
1 read 00000000-0000-4000-8000-000000000002 00000000-0000-4000-8000-000000000003 0 1024";

const REPLIES: &str = "\
1 ok
4 ok
5 ok 1
6 ok
7 ok 00000000-0000-4000-8000-000000000101 1024
8 ok
9 ok 512*00+512*41
";

// A script with lines of each kind that the session refuses, between those that it takes.
const REFUSED: &str = "\
2 boot
1 boot
1
1 down
1 tasks
1 begin
1 make-pool 00000000-0000-4000-8000-000000000001 00000000-0000-4000-8000-000000000002 4 -
1 make-pool 00000000-0000-4000-8000-000000000001 00000000-0000-4000-8000-000000000002 6 -
1 make-pool 00000000-0000-4000-8000-000000000001 00000000-0000-4000-8000-000000000002 5 store
01  make-pool 00000000-0000-4000-8000-000000000001 00000000-0000-4000-8000-000000000002 05 -
1 spm-start 00000000-0000-4000-8000-000000000002 0 1
1 spm-start 00000000-0000-4000-8000-000000000004 0 0
1 spm-start 00000000-0000-4000-8000-000000000002 0 0
1 create 00000000-0000-4000-8000-000000000201 00000000-0000-4000-8000-000000000002 00000000-0000-4000-8000-000000000003 00000000-0000-4000-8000-000000000101 RAW SPARSE 100 -
1 create 00000000-0000-4000-8000-000000000201 00000000-0000-4000-8000-000000000002 00000000-0000-4000-8000-000000000003 00000000-0000-4000-8000-000000000101 COW SPARSE 512 -
1 create 00000000-0000-4000-8000-000000000201 00000000-0000-4000-8000-000000000002 00000000-0000-0000-0000-000000000000 00000000-0000-4000-8000-000000000101 RAW SPARSE 512 -
1 create 00000000-0000-4000-8000-000000000201 00000000-0000-4000-8000-000000000002 00000000-0000-4000-8000-000000000003 00000000-0000-4000-8000-000000000101 RAW SPARSE 512 -
1 begin open 00000000-0000-4000-8000-000000000002 00000000-0000-4000-8000-000000000003
1 open 00000000-0000-4000-8000-000000000002 00000000-0000-4000-8000-000000000003
1 write 00000000-0000-4000-8000-000000000002 00000000-0000-4000-8000-000000000003 0 41
1 write 00000000-0000-4000-8000-000000000002 00000000-0000-4000-8000-000000000003 0 256*41+254*41+4141
1 read 00000000-0000-4000-8000-000000000002 00000000-0000-4000-8000-000000000003 0 65537
1 read 00000000-0000-4000-8000-000000000002 00000000-0000-4000-8000-000000000003 0 512 -
1 read 00000000-0000-4000-8000-000000000002 00000000-0000-4000-8000-000000000003 0 512";

const REFUSALS: &str = "\
1 refused 14 NotBuilt
2 ok
3 refused 10 BadLine
4 refused 14 NotBuilt
5 refused 12 UnknownVerb
6 refused 12 UnknownVerb
7 refused 14 NotBuilt
8 refused 13 BadArgument 3
9 refused 14 NotBuilt
10 ok
11 refused 14 NotBuilt
12 refused 14 NotBuilt
13 ok 1
14 refused 14 NotBuilt
15 refused 14 NotBuilt
16 refused 13 BadArgument 3
17 ok
18 refused 14 NotBuilt
19 ok 00000000-0000-4000-8000-000000000101 512
20 refused 72 Unaligned 0 1
21 ok
22 refused 13 BadArgument 4
23 refused 13 BadArgument 5
24 ok 512*41
";

// How the source and the sink of a session are made: at most so many bytes a read, the read and the write that fail,
// and the sink's room.
#[derive(Clone, Copy, Debug)]
struct Streams {
    piece: usize,
    read: u64,
    write: u64,
    room: usize,
}

// No call fails, and there is room.
const SOUND: Streams = Streams {
    piece: 65_536,
    read: 1_000_000,
    write: 1_000_000,
    room: 4096,
};

// Runs a session of these bytes, and says whether it gave these replies and ended so.
fn ends(
    alloc: Global,
    disk: &mut Memory,
    words: &[&str],
    input: Vec<u8>,
    streams: Streams,
    status: Status,
    replies: &[u8],
) -> Result<bool, Fail> {
    let pieces = Vec::from_elem(alloc, streams.piece, 2000)?;
    let mut source = MemorySource::new(input, pieces, [streams.read].to_vec(alloc)?);
    let mut sink = MemorySink::new(alloc, streams.room, [streams.write].to_vec(alloc)?)?;
    let ended = vdsm(alloc, words, 0, &mut source, &mut sink, disk);
    Ok(ended == status && sink.bytes() == replies)
}

fn sound_disk(alloc: Global) -> Result<Memory, Fail> {
    Ok(Memory::new(alloc, Vec::new(alloc), Vec::new(alloc), 100)?)
}

#[test]
fn scripts_and_their_ends(rt: HostRuntime) -> Result<(), Fail> {
    let alloc = rt.alloc();
    let half = Streams { room: 8, ..SOUND };
    let table: [(&[&str], &str, Streams, Status, &str); 12] = [
        (&["session"], SCRIPT, SOUND, Status::Done, REPLIES),
        (
            &["session"],
            SCRIPT,
            Streams { piece: 1, ..SOUND },
            Status::Done,
            REPLIES,
        ),
        (&["session"], REFUSED, SOUND, Status::Refused, REFUSALS),
        (&["session"], "", SOUND, Status::Done, ""),
        (&["session"], "\n# x\n\n", SOUND, Status::Done, ""),
        (
            &["session"],
            "1 boot\n1 boot\n",
            SOUND,
            Status::Refused,
            "1 ok\n2 refused 14 NotBuilt\n",
        ),
        (
            &["session"],
            "x\n\n1 boot",
            SOUND,
            Status::Refused,
            "1 refused 10 BadLine\n3 ok\n",
        ),
        (
            &["session"],
            "1 boot\nx\n1 spm",
            Streams {
                piece: 9,
                read: 1,
                ..SOUND
            },
            Status::ReadFault,
            "1 ok\n2 refused 10 BadLine\n",
        ),
        (
            &["session"],
            "1 boot\nx\nx\n",
            Streams { write: 0, ..SOUND },
            Status::WriteFault,
            "",
        ),
        (
            &["session"],
            "1 boot\nx\nx\n",
            Streams { write: 1, ..SOUND },
            Status::WriteFault,
            "1 ok\n",
        ),
        (
            &["session"],
            "1 boot\nx\nx\n",
            half,
            Status::WriteFault,
            "1 ok\n2 r",
        ),
        (
            &["session"],
            "1 boot\nx",
            half,
            Status::WriteFault,
            "1 ok\n2 r",
        ),
    ];
    for (words, input, streams, status, replies) in table {
        let mut disk = sound_disk(alloc)?;
        let input = input.as_bytes().to_vec(alloc)?;
        assert!(rt;
            ends(
                alloc,
                &mut disk,
                words,
                input,
                streams,
                status,
                replies.as_bytes()
            )?,
            "{words:?} {streams:?} {status:?} {replies:?}"
        );
    }
    Ok(())
}

// The words of a run of the first script's lines.
const RUN: [&str; 8] = [
    "run",
    "1 boot",
    "1 make-pool 00000000-0000-4000-8000-000000000001 00000000-0000-4000-8000-000000000002 5 -",
    "1 spm-start 00000000-0000-4000-8000-000000000002 0 0",
    "1 create 00000000-0000-4000-8000-000000000201 00000000-0000-4000-8000-000000000002 00000000-0000-4000-8000-000000000003 00000000-0000-4000-8000-000000000101 RAW SPARSE 512 -",
    "1 open 00000000-0000-4000-8000-000000000002 00000000-0000-4000-8000-000000000003",
    "1 write 00000000-0000-4000-8000-000000000002 00000000-0000-4000-8000-000000000003 0 512*41",
    "1 read 00000000-0000-4000-8000-000000000002 00000000-0000-4000-8000-000000000003 0 512",
];

const RUN_REPLIES: &str = "\
1 ok
2 ok
3 ok 1
4 ok
5 ok 00000000-0000-4000-8000-000000000101 512
6 ok
7 ok 512*41
";

// A run takes its lines from the words. The source is a script of another host, and fails in its first read.
#[test]
fn runs_of_lines(rt: HostRuntime) -> Result<(), Fail> {
    let alloc = rt.alloc();
    let unread = Streams { read: 0, ..SOUND };
    let full = Streams { write: 1, ..SOUND };
    let table: [(&[&str], Streams, Status, &str); 6] = [
        (RUN.as_slice(), unread, Status::Done, RUN_REPLIES),
        (RUN.as_slice(), full, Status::WriteFault, "1 ok\n"),
        (&["run", "1 boot"], unread, Status::Done, "1 ok\n"),
        (
            &["run", "--moment", "5", "# x", "1 boot", "1 boot"],
            unread,
            Status::Refused,
            "2 ok\n3 refused 14 NotBuilt\n",
        ),
        (
            &["run", "1 boot\n1 boot"],
            unread,
            Status::Refused,
            "1 ok\n2 refused 14 NotBuilt\n",
        ),
        (&["run", "--", ""], unread, Status::Done, ""),
    ];
    for (words, streams, status, replies) in table {
        let mut disk = sound_disk(alloc)?;
        let input = b"2 boot\n".to_vec(alloc)?;
        let replies = replies.as_bytes();
        assert!(rt;
            ends(alloc, &mut disk, words, input, streams, status, replies)?,
            "{words:?} {status:?}"
        );
    }
    Ok(())
}

// Words that ask for a session, and words that ask for nothing.
#[test]
fn words_and_their_status(rt: HostRuntime) -> Result<(), Fail> {
    let alloc = rt.alloc();
    let table: [(&[&str], Status, &str); 12] = [
        (&["session"], Status::Done, "1 ok\n"),
        (&["session", "--moment", "5"], Status::Done, "1 ok\n"),
        (&["session", "--moment=5"], Status::Done, "1 ok\n"),
        (&[], Status::Words, ""),
        (&["run"], Status::Words, ""),
        (&["session", "session"], Status::Words, ""),
        (&["session", "--moment"], Status::Words, ""),
        (
            &["session", "--moment=18446744073709551616"],
            Status::Words,
            "",
        ),
        (&["session", "--moment=1", "--moment=1"], Status::Words, ""),
        (&["--help"], Status::Words, ""),
        (&["dump"], Status::Words, ""),
        (&["exercise", "1"], Status::Words, ""),
    ];
    for (words, status, replies) in table {
        let mut disk = sound_disk(alloc)?;
        let input = b"1 boot".to_vec(alloc)?;
        let replies = replies.as_bytes();
        assert!(rt;
            ends(alloc, &mut disk, words, input, SOUND, status, replies)?,
            "{words:?}"
        );
    }
    Ok(())
}

// A sink that takes one byte of each piece.
#[derive(Drop)]
struct Trickle(MemorySink);

impl Sink for Trickle {
    ghost given = { λ _. None };

    ghost faults = { λ s. sink_faults s.0 };

    fn write(&mut self, piece: &[u8]) -> Result<usize, Failed> {
        self.0.write(&piece[..piece.len().min(1)])
    }
}

#[test]
fn writes_of_one_byte(rt: HostRuntime) -> Result<(), Fail> {
    let alloc = rt.alloc();
    let input = SCRIPT.as_bytes().to_vec(alloc)?;
    let mut source = MemorySource::new(input, Vec::new(alloc), Vec::new(alloc));
    let mut sink = Trickle(MemorySink::new(alloc, 4096, Vec::new(alloc))?);
    let mut disk = sound_disk(alloc)?;
    let ended = vdsm(alloc, &["session"], 0, &mut source, &mut sink, &mut disk);
    assert_eq!(rt; ended, Status::Done);
    assert!(rt; sink.0.bytes() == REPLIES.as_bytes());
    Ok(())
}

// The last byte of the second sector of the script's file, as host 1 sees it.
fn second_sector(disk: &mut Memory) -> Option<u8> {
    let domain = Id::read(b"00000000-0000-4000-8000-000000000002")?;
    let image = Id::read(b"00000000-0000-4000-8000-000000000003")?;
    let volume = Id::read(b"00000000-0000-4000-8000-000000000101")?;
    let place = Place {
        dir: Dir::Image(domain, image),
        name: Name::Volume(volume),
    };
    let mut part = [255; 512];
    match disk.read_at(HostId::new(1)?, place, 512, &mut part) {
        Ok(_) => Some(part[511]),
        Err(_) => None,
    }
}

// A write that fails leaves the sector old, and a sync that fails leaves it new.
#[test]
fn the_sector_behind_a_fault(rt: HostRuntime) -> Result<(), Fail> {
    let alloc = rt.alloc();
    for (failing, byte) in [(8, Some(0)), (9, Some(0x41)), (10, Some(0x41))] {
        let mut disk = Memory::new(alloc, Vec::new(alloc), [failing].to_vec(alloc)?, 100)?;
        let mut source = MemorySource::new(
            SCRIPT.as_bytes().to_vec(alloc)?,
            Vec::new(alloc),
            Vec::new(alloc),
        );
        let mut sink = MemorySink::new(alloc, 4096, Vec::new(alloc))?;
        let _ = vdsm(alloc, &["session"], 0, &mut source, &mut sink, &mut disk);
        assert_eq!(rt; second_sector(&mut disk), byte, "{failing}");
    }
    Ok(())
}

// The disk fails in one of the calls from the first to the last of a row: the lines before are answered as they were, the
// line of the call tells of the fault, and no line behind it is built.
#[test]
fn a_fault_of_each_call_of_the_disk(rt: HostRuntime) -> Result<(), Fail> {
    let alloc = rt.alloc();
    let table = [
        (
            0,
            4,
            "1 ok\n4 refused 120 DiskFault 1\n5 refused 14 NotBuilt\n6 refused 14 NotBuilt\n7 refused 14 NotBuilt\n8 refused 14 NotBuilt\n9 refused 14 NotBuilt\n",
        ),
        (
            5,
            7,
            "1 ok\n4 ok\n5 ok 1\n6 refused 120 DiskFault 1\n7 refused 14 NotBuilt\n8 refused 14 NotBuilt\n9 refused 14 NotBuilt\n",
        ),
        (
            8,
            9,
            "1 ok\n4 ok\n5 ok 1\n6 ok\n7 ok 00000000-0000-4000-8000-000000000101 1024\n8 refused 120 DiskFault 1\n9 refused 14 NotBuilt\n",
        ),
        (
            10,
            10,
            "1 ok\n4 ok\n5 ok 1\n6 ok\n7 ok 00000000-0000-4000-8000-000000000101 1024\n8 ok\n9 refused 120 DiskFault 1\n",
        ),
    ];
    for (first, last, replies) in table {
        for failing in first..=last {
            let mut disk = Memory::new(alloc, Vec::new(alloc), [failing].to_vec(alloc)?, 100)?;
            let input = SCRIPT.as_bytes().to_vec(alloc)?;
            assert!(rt;
                ends(
                    alloc,
                    &mut disk,
                    &["session"],
                    input,
                    SOUND,
                    Status::Refused,
                    replies.as_bytes()
                )?,
                "{failing}"
            );
        }
    }
    Ok(())
}

// One line of 64 MiB is read to its end, and one byte more is too much.
#[test]
fn the_most_input(rt: HostRuntime) -> Result<(), Fail> {
    let alloc = rt.alloc();
    for (length, status) in [(67_108_864, Status::Done), (67_108_865, Status::TooLong)] {
        let mut disk = sound_disk(alloc)?;
        let input = Vec::from_elem(alloc, b'#', length)?;
        assert!(rt;
            ends(alloc, &mut disk, &["session"], input, SOUND, status, b"")?,
            "{length}"
        );
    }
    Ok(())
}

// A line of 200,000 bytes is read, and one of more isn't; the line behind it is run.
#[test]
fn the_longest_line(rt: HostRuntime) -> Result<(), Fail> {
    let alloc = rt.alloc();
    let table: [(usize, &str); 2] = [
        (200_000, "1 refused 10 BadLine\n2 ok\n"),
        (200_001, "1 refused 11 LineTooLong\n2 ok\n"),
    ];
    for (length, replies) in table {
        let mut disk = sound_disk(alloc)?;
        let mut input = Vec::from_elem(alloc, b'x', length)?;
        input.extend_from_slice(b"\n1 boot\n")?;
        assert!(rt;
            ends(
                alloc,
                &mut disk,
                &["session"],
                input,
                SOUND,
                Status::Refused,
                replies.as_bytes()
            )?,
            "{length}"
        );
    }
    Ok(())
}
