// The replies of the worked scripts as texts: each text of a reply once, with the number of a line that has it.
ghost use Rattle.std.specs.Prelude.{◌≡◌, ◌≤◌, ◌%◌, IsTrue, length};
ghost use Rattle.script_lines.specs.Reply.{IsBounded, IsBoundedPayload};

use script_lines::{REPLY_ROOM, Reply, push_reply};
use sd_names::{Answers, Id, Payload, Refusal, TaskState, Tasks};
use std::alloc::{AllocError, Global};
use std::test::Fail;

/// The identifier of the worked scripts that ends so.
fn id(end: u16) -> Id {
    let [high, low] = end.to_be_bytes();
    Id([0, 0, 0, 0, 0, 0, 0x40, 0, 0x80, 0, 0, 0, 0, 0, high, low])
}

/// The text of a reply.
fn text_of(alloc: Global, line: u64, reply: &Reply, bytes: &[u8]) -> Result<Vec<u8>, AllocError>
    requires whole { length bytes.now % 512 ≡ 0 }
    requires short { length bytes.now ≤ 65536 }
    requires bounded { IsBounded reply.now }
{
    let mut text = Vec::with_capacity(alloc, REPLY_ROOM)?;
    push_reply(&mut text, line, reply, bytes);
    Ok(text)
}

/// Whether a payload has no more tasks than a pool may have.
fn is_bounded(payload: &Payload) -> bool
    ensures { IsTrue result → IsBoundedPayload payload.now }
{
    match payload {
        Payload::Tasks(tasks) => tasks.len() <= 128,
        _ => true,
    }
}

/// Whether this is printed for a verb that was done and read no bytes.
fn prints(alloc: Global, line: u64, payload: Payload, text: &[u8]) -> Result<bool, AllocError> {
    if !is_bounded(&payload) {
        return Ok(false);
    }
    Ok(text_of(alloc, line, &Reply::Done(payload), &[])?.as_slice() == text)
}

#[test]
fn plain_replies(rt: HostRuntime) -> Result<(), Fail> {
    let cases: [(u64, Reply, &[u8]); 4] = [
        (1, Reply::Plain, b"1 ok\n"),
        (21, Reply::Plain, b"21 ok\n"),
        (4, Reply::Begun, b"4 begun\n"),
        (9, Reply::More, b"9 more\n"),
    ];
    for (line, reply, text) in cases {
        if let Reply::Done(_) = reply {
            return Err("a verb's reply".into());
        }
        assert!(rt; text_of(rt.alloc(), line, &reply, &[])?.as_slice() == text);
    }
    Ok(())
}

#[test]
fn replies_of_verbs(rt: HostRuntime) -> Result<(), Fail> {
    let cases: [(u64, Payload, &[u8]); 27] = [
        (2, Payload::MakePool, b"2 ok\n"),
        (4, Payload::Create, b"4 ok\n"),
        (6, Payload::Write, b"6 ok\n"),
        (7, Payload::Close, b"7 ok\n"),
        (8, Payload::Snapshot, b"8 ok\n"),
        (19, Payload::LivePivot, b"19 ok\n"),
        (12, Payload::PrepareMerge, b"12 ok\n"),
        (14, Payload::FinalizeMerge, b"14 ok\n"),
        (16, Payload::DeleteVolume, b"16 ok\n"),
        (8, Payload::Extend, b"8 ok\n"),
        (9, Payload::Copy, b"9 ok\n"),
        (12, Payload::Describe, b"12 ok\n"),
        (14, Payload::ClearTask, b"14 ok\n"),
        (5, Payload::SpmStop, b"5 ok\n"),
        (3, Payload::SpmStart(1), b"3 ok 1\n"),
        (
            11,
            Payload::LiveStart {
                front: 0,
                end: 16384,
            },
            b"11 ok 0 16384\n",
        ),
        (
            12,
            Payload::LiveFill {
                front: 1,
                end: 16384,
            },
            b"12 ok 1 16384\n",
        ),
        (
            17,
            Payload::LiveFill {
                front: 16384,
                end: 16384,
            },
            b"17 ok 16384 16384\n",
        ),
        (18, Payload::LiveSync(1), b"18 ok 1\n"),
        (13, Payload::Merge(1), b"13 ok 1\n"),
        (12, Payload::SpmStart(2), b"12 ok 2\n"),
        (15, Payload::Recover(0), b"15 ok 0\n"),
        (11, Payload::LiveStart { front: 0, end: 2 }, b"11 ok 0 2\n"),
        (13, Payload::LiveFill { front: 2, end: 2 }, b"13 ok 2 2\n"),
        (27, Payload::BoxServe { done: 1, fail: 0 }, b"27 ok 1 0\n"),
        (31, Payload::BoxServe { done: 0, fail: 1 }, b"31 ok 0 1\n"),
        (10, Payload::SpmStart(3), b"10 ok 3\n"),
    ];
    for (line, payload, text) in cases {
        assert!(rt; prints(rt.alloc(), line, payload, text)?);
    }
    Ok(())
}

#[test]
fn opens(rt: HostRuntime) -> Result<(), Fail> {
    let cases: [(u64, u16, u64, &[u8]); 9] = [
        (
            5,
            0x101,
            1073741824,
            b"5 ok 00000000-0000-4000-8000-000000000101 1073741824\n",
        ),
        (
            9,
            0x102,
            1073741824,
            b"9 ok 00000000-0000-4000-8000-000000000102 1073741824\n",
        ),
        (
            5,
            0x101,
            1024,
            b"5 ok 00000000-0000-4000-8000-000000000101 1024\n",
        ),
        (
            10,
            0x111,
            2048,
            b"10 ok 00000000-0000-4000-8000-000000000111 2048\n",
        ),
        (
            5,
            0x101,
            131072,
            b"5 ok 00000000-0000-4000-8000-000000000101 131072\n",
        ),
        (
            5,
            0x101,
            512,
            b"5 ok 00000000-0000-4000-8000-000000000101 512\n",
        ),
        (
            6,
            0x102,
            131072,
            b"6 ok 00000000-0000-4000-8000-000000000102 131072\n",
        ),
        (
            10,
            0x103,
            131072,
            b"10 ok 00000000-0000-4000-8000-000000000103 131072\n",
        ),
        (
            12,
            0x111,
            131072,
            b"12 ok 00000000-0000-4000-8000-000000000111 131072\n",
        ),
    ];
    for (line, volume, capacity, text) in cases {
        let reading = id(volume);
        assert!(rt; prints(rt.alloc(), line, Payload::Open { reading, capacity }, text)?);
    }
    Ok(())
}

#[test]
fn refusals(rt: HostRuntime) -> Result<(), Fail> {
    let cases: [(u64, Refusal, &[u8]); 25] = [
        (
            16,
            Refusal::MergeNotReady(1, 16384),
            b"16 refused 92 MergeNotReady 1 16384\n",
        ),
        (1, Refusal::BadLine, b"1 refused 10 BadLine\n"),
        (3, Refusal::UnknownVerb, b"3 refused 12 UnknownVerb\n"),
        (4, Refusal::BadArgument(2), b"4 refused 13 BadArgument 2\n"),
        (5, Refusal::BadArgument(3), b"5 refused 13 BadArgument 3\n"),
        (6, Refusal::LineTooLong, b"6 refused 11 LineTooLong\n"),
        (
            7,
            Refusal::OutOfRange(1536, 1024),
            b"7 refused 70 OutOfRange 1536 1024\n",
        ),
        (
            9,
            Refusal::Unaligned(100, 512),
            b"9 refused 72 Unaligned 100 512\n",
        ),
        (
            10,
            Refusal::BadArgument(4),
            b"10 refused 13 BadArgument 4\n",
        ),
        (2, Refusal::HostIdle, b"2 refused 22 HostIdle\n"),
        (3, Refusal::HostUp, b"3 refused 23 HostUp\n"),
        (5, Refusal::HostBusy, b"5 refused 21 HostBusy\n"),
        (6, Refusal::HostDown, b"6 refused 20 HostDown\n"),
        (14, Refusal::NoImage, b"14 refused 50 NoImage\n"),
        (
            15,
            Refusal::BadCapacity(512, 2048),
            b"15 refused 69 BadCapacity 512 2048\n",
        ),
        (13, Refusal::ImageHeld(2), b"13 refused 52 ImageHeld 2\n"),
        (
            9,
            Refusal::VolumeExists(id(0x101)),
            b"9 refused 61 VolumeExists 00000000-0000-4000-8000-000000000101\n",
        ),
        (
            25,
            Refusal::NoRoom(id(0x102), 1310720, 1376256),
            b"25 refused 71 NoRoom 00000000-0000-4000-8000-000000000102 1310720 1376256\n",
        ),
        (96, Refusal::BoxFull, b"96 refused 110 BoxFull\n"),
        (
            6,
            Refusal::LverMismatch(0, 1),
            b"6 refused 42 LverMismatch 0 1\n",
        ),
        (8, Refusal::SpmHeld(1, 2), b"8 refused 41 SpmHeld 1 2\n"),
        (
            14,
            Refusal::GenerationMismatch(0, 1),
            b"14 refused 66 GenerationMismatch 0 1\n",
        ),
        (15, Refusal::NotPrepared, b"15 refused 90 NotPrepared\n"),
        (
            16,
            Refusal::MergeRunning(id(0x101)),
            b"16 refused 91 MergeRunning 00000000-0000-4000-8000-000000000101\n",
        ),
        (
            14,
            Refusal::NoVolume(id(0x101)),
            b"14 refused 60 NoVolume 00000000-0000-4000-8000-000000000101\n",
        ),
    ];
    for (line, refusal, text) in cases {
        assert!(rt; text_of(rt.alloc(), line, &Reply::Refused(refusal), &[])?.as_slice() == text);
    }
    Ok(())
}

fn bytes_of(alloc: Global, parts: &[(usize, u8)]) -> Result<Vec<u8>, AllocError> {
    let mut bytes = Vec::new(alloc);
    for (count, byte) in parts {
        for _ in 0..*count {
            bytes.push(*byte)?;
        }
    }
    Ok(bytes)
}

#[test]
fn reads(rt: HostRuntime) -> Result<(), Fail> {
    let cases: [(u64, &[(usize, u8)], &[u8]); 16] = [
        (24, &[(512, 0x88)], b"24 ok 512*88\n"),
        (6, &[(512, 0x00)], b"6 ok 512*00\n"),
        (
            11,
            &[(32768, 0x11), (32768, 0x22)],
            b"11 ok 32768*11+32768*22\n",
        ),
        (
            18,
            &[(32768, 0x22), (32768, 0x00)],
            b"18 ok 32768*22+32768*00\n",
        ),
        (
            11,
            &[(1024, 0x11), (1024, 0x00)],
            b"11 ok 1024*11+1024*00\n",
        ),
        (
            7,
            &[(512, 0x00), (512, 0x44), (1024, 0x00)],
            b"7 ok 512*00+512*44+1024*00\n",
        ),
        (7, &[(512, 0x41)], b"7 ok 512*41\n"),
        (16, &[(512, 0x33), (512, 0x22)], b"16 ok 512*33+512*22\n"),
        (22, &[(512, 0x55), (512, 0x11)], b"22 ok 512*55+512*11\n"),
        (23, &[(512, 0x66), (512, 0x22)], b"23 ok 512*66+512*22\n"),
        (24, &[(512, 0x77)], b"24 ok 512*77\n"),
        (13, &[(512, 0x11)], b"13 ok 512*11\n"),
        (15, &[(512, 0x22), (512, 0x00)], b"15 ok 512*22+512*00\n"),
        (
            11,
            &[(512, 0x33), (512, 0x44), (64512, 0x00)],
            b"11 ok 512*33+512*44+64512*00\n",
        ),
        (13, &[(512, 0x11), (512, 0x22)], b"13 ok 512*11+512*22\n"),
        (14, &[(512, 0x41), (512, 0x00)], b"14 ok 512*41+512*00\n"),
    ];
    for (line, parts, text) in cases {
        let bytes = bytes_of(rt.alloc(), parts)?;
        if bytes.len() > 65536 || bytes.len() % 512 != 0 {
            return Err("a read is whole sectors".into());
        }
        let reply = Reply::Done(Payload::Read {
            length: bytes.len() as u32,
        });
        assert!(rt; text_of(rt.alloc(), line, &reply, &bytes)?.as_slice() == text);
    }
    Ok(())
}

#[test]
fn tasks(rt: HostRuntime) -> Result<(), Fail> {
    let cases: [(u64, &[(u16, TaskState)], &[u8]); 4] = [
        (
            19,
            &[
                (0x201, TaskState::Done),
                (0x202, TaskState::Done),
                (0x203, TaskState::Done),
            ],
            b"19 ok 3 00000000-0000-4000-8000-000000000201:done 00000000-0000-4000-8000-000000000202:done 00000000-0000-4000-8000-000000000203:done\n",
        ),
        (
            13,
            &[(0x201, TaskState::Done), (0x204, TaskState::Undone)],
            b"13 ok 2 00000000-0000-4000-8000-000000000201:done 00000000-0000-4000-8000-000000000204:undone\n",
        ),
        (
            13,
            &[
                (0x201, TaskState::Done),
                (0x202, TaskState::Done),
                (0x203, TaskState::Done),
                (0x204, TaskState::Done),
            ],
            b"13 ok 4 00000000-0000-4000-8000-000000000201:done 00000000-0000-4000-8000-000000000202:done 00000000-0000-4000-8000-000000000203:done 00000000-0000-4000-8000-000000000204:done\n",
        ),
        (
            9,
            &[(0x201, TaskState::Done)],
            b"9 ok 1 00000000-0000-4000-8000-000000000201:done\n",
        ),
    ];
    for (line, states, text) in cases {
        let mut tasks = Tasks::new(rt.alloc());
        for (task, state) in states {
            tasks.push(id(*task), *state)?;
        }
        assert!(rt; prints(rt.alloc(), line, Payload::Tasks(tasks), text)?);
    }
    Ok(())
}

#[test]
fn answers(rt: HostRuntime) -> Result<(), Fail> {
    let cases: [(u64, u32, bool, &[u8]); 2] = [
        (28, 7, true, b"28 ok 7:done\n"),
        (32, 8, false, b"32 ok 8:fail\n"),
    ];
    for (line, mark, done, text) in cases {
        let mut answers = Answers::new();
        answers.push(mark, done);
        assert!(rt; prints(rt.alloc(), line, Payload::BoxCollect(answers), text)?);
    }
    Ok(())
}

/// The replies to a guest's messages to a box that was empty.
const SLOTS: &[u8] = b"33 ok 0
34 ok 1
35 ok 2
36 ok 3
37 ok 4
38 ok 5
39 ok 6
40 ok 7
41 ok 8
42 ok 9
43 ok 10
44 ok 11
45 ok 12
46 ok 13
47 ok 14
48 ok 15
49 ok 16
50 ok 17
51 ok 18
52 ok 19
53 ok 20
54 ok 21
55 ok 22
56 ok 23
57 ok 24
58 ok 25
59 ok 26
60 ok 27
61 ok 28
62 ok 29
63 ok 30
64 ok 31
65 ok 32
66 ok 33
67 ok 34
68 ok 35
69 ok 36
70 ok 37
71 ok 38
72 ok 39
73 ok 40
74 ok 41
75 ok 42
76 ok 43
77 ok 44
78 ok 45
79 ok 46
80 ok 47
81 ok 48
82 ok 49
83 ok 50
84 ok 51
85 ok 52
86 ok 53
87 ok 54
88 ok 55
89 ok 56
90 ok 57
91 ok 58
92 ok 59
93 ok 60
94 ok 61
95 ok 62
";

#[test]
fn slots(rt: HostRuntime) -> Result<(), Fail> {
    let mut texts = Vec::with_capacity(rt.alloc(), 1000)?;
    for slot in 0..63 {
        let text = text_of(
            rt.alloc(),
            33 + slot as u64,
            &Reply::Done(Payload::BoxPost(slot)),
            &[],
        )?;
        texts.extend_from_slice(&text)?;
    }
    assert!(rt; texts.as_slice() == SLOTS);
    Ok(())
}
