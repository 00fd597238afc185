ghost use Rattle.task_store.specs.TaskText.{IsTask};

use super::*;
use sd_names::{Bytes, Id, NoMemory, TaskState, VerbName};
use std::alloc::{AllocError, Global};
use std::test::Fail;

const TASK: Id = Id([0, 0, 0, 0, 0, 0, 0x40, 0, 0x80, 0, 0, 0, 0, 0, 2, 1]);

const SD: Id = Id([0, 0, 0, 0, 0, 0, 0x40, 0, 0x80, 0, 0, 0, 0, 0, 0, 2]);

const IMAGE: Id = Id([0, 0, 0, 0, 0, 0, 0x40, 0, 0x80, 0, 0, 0, 0, 0, 0, 3]);

const V: Id = Id([0, 0, 0, 0, 0, 0, 0x40, 0, 0x80, 0, 0, 0, 0, 0, 1, 1]);

const PARENT: Id = Id([0, 0, 0, 0, 0, 0, 0x40, 0, 0x80, 0, 0, 0, 0, 0, 1, 2]);

// A text with a step of each kind.
const ALL: &str =
    "STATE=OPEN\nSTEP00=RemoveImage 00000000-0000-4000-8000-000000000002 00000000-0000-4000-8000-000000000003\nSTEP01=RemoveVolume 00000000-0000-4000-8000-000000000002 00000000-0000-4000-8000-000000000003 00000000-0000-4000-8000-000000000101\nSTEP02=SetLeaf 00000000-0000-4000-8000-000000000002 00000000-0000-4000-8000-000000000003 00000000-0000-4000-8000-000000000101\nSTEP03=DropDomain 00000000-0000-4000-8000-000000000002\nSTEP04=FinishDelete 00000000-0000-4000-8000-000000000002 00000000-0000-4000-8000-000000000003 00000000-0000-4000-8000-000000000101 00000000-0000-4000-8000-000000000102\nSTEP05=FinishRemove 00000000-0000-4000-8000-000000000002 00000000-0000-4000-8000-000000000003\nSTEP06=FinishExtend 00000000-0000-4000-8000-000000000002 00000000-0000-4000-8000-000000000003 00000000-0000-4000-8000-000000000101 1073741824\nSTEP07=FinishDescribe 00000000-0000-4000-8000-000000000002 00000000-0000-4000-8000-000000000003 00000000-0000-4000-8000-000000000101 new=text\nVERB=snapshot\nEOF\n";

const HEAD: &str =
    "00000000-0000-4000-8000-000000000002 00000000-0000-4000-8000-000000000003 00000000-0000-4000-8000-000000000101 ";

// A step of each kind.
fn each_kind(alloc: Global) -> Result<[Undo; 8], NoMemory> {
    let word = Bytes::copied(alloc, b"new=text")?;
    let (sd, image, v) = (SD, IMAGE, V);
    Ok([
        Undo::RemoveImage { sd, image },
        Undo::RemoveVolume { sd, image, v },
        Undo::SetLeaf { sd, image, v },
        Undo::DropDomain { sd },
        Undo::FinishDelete {
            sd,
            image,
            v,
            parent: PARENT,
        },
        Undo::FinishRemove { sd, image },
        Undo::FinishExtend {
            sd,
            image,
            v,
            capacity: 1 << 30,
        },
        Undo::FinishDescribe { sd, image, v, word },
    ])
}

// What reading a text answers: the number of its refusal, or 0.
fn number_of(alloc: Global, text: &[u8]) -> u16 {
    match Task::read(alloc, TASK, text) {
        Ok(_) => 0,
        Err(refusal) => refusal.number(),
    }
}

// Whether a task that was read is written as this text.
fn is_written_as(task: &Task, text: &str) -> bool
    requires { IsTask task.now }
{
    let mut into = [0; 8192];
    let len = task.write_into(&mut into);
    &into[..len] == text.as_bytes()
}

// A text with one step.
fn with_step(alloc: Global, parts: &[&str; 4]) -> Result<Vec<u8>, AllocError> {
    let mut text = Vec::new(alloc);
    text.extend_from_slice(b"STATE=OPEN\nSTEP00=")?;
    for part in parts {
        text.extend_from_slice(part.as_bytes())?;
    }
    text.extend_from_slice(b"\nVERB=extend\nEOF\n")?;
    Ok(text)
}

#[test]
fn each_kind_is_read(rt: HostRuntime) -> Result<(), Fail> {
    let task = match Task::read(rt.alloc(), TASK, ALL.as_bytes()) {
        Ok(task) => task,
        Err(_) => return Err("not read".into()),
    };
    assert!(rt; task.id == TASK);
    assert!(rt; task.verb == VerbName::Snapshot);
    assert!(rt; task.state == TaskState::Open);
    assert_eq!(rt; task.steps.as_slice().len(), 8);
    assert!(rt; is_written_as(&task, ALL));
    Ok(())
}

#[test]
fn steps_are_pushed(rt: HostRuntime) -> Result<(), Fail> {
    let mut task = Task::new(rt.alloc(), TASK, VerbName::Copy);
    let Ok(steps) = each_kind(rt.alloc()) else {
        return Err("no memory".into());
    };
    for step in steps {
        if task.push_step(step).is_err() {
            return Err("no memory".into());
        }
    }
    assert_eq!(rt; task.steps.as_slice().len(), 8);
    Ok(())
}

// A text has room for 16 steps.
#[test]
fn sixteen_steps(rt: HostRuntime) -> Result<(), AllocError> {
    for (count, want) in [(16, 0), (17, 104)] {
        let mut text = Vec::new(rt.alloc());
        text.extend_from_slice(b"STATE=OPEN\n")?;
        for number in 0..count {
            text.extend_from_slice(b"STEP")?;
            text.push(b'0' + number / 10)?;
            text.push(b'0' + number % 10)?;
            text.extend_from_slice(b"=DropDomain 00000000-0000-4000-8000-000000000002\n")?;
        }
        text.extend_from_slice(b"VERB=copy\nEOF\n")?;
        assert_eq!(rt; number_of(rt.alloc(), &text), want);
    }
    Ok(())
}

#[test]
fn texts(rt: HostRuntime) {
    let cases = [
        ("STATE=DONE\nVERB=create\nEOF\n", 0),
        ("STATE=UNDONE\nVERB=snapshot\nEOF", 0),
        ("STATE=DONE\nVERB=delete-volume\nEOF\n", 0),
        ("STATE=DONE\nVERB=delete-image\nEOF\n", 0),
        ("STATE=DONE\nVERB=copy\nEOF\n", 0),
        ("STATE=DONE\nVERB=extend\nEOF\n", 0),
        ("STATE=DONE\nVERB=describe\nEOF\n", 0),
        ("STATE=OPEN\nVERB=add-domain\nEOF\n", 0),
        ("STATE=DONE\nVERB=open\nEOF\n", 104),
        ("STATE=open\nVERB=create\nEOF\n", 104),
        ("VERB=create\nSTATE=OPEN\nEOF\n", 104),
        ("STATE=OPEN\n\nVERB=create\nEOF\n", 104),
        ("STATE=OPEN\nVERB=create\nVERB=create\nEOF\n", 104),
        ("STATE=OPEN\nSEQ=1\nVERB=create\nEOF\n", 104),
        ("STATE=OPEN\nVERB=create\nEOF\n\n", 104),
        ("STATE=OPEN\nVERB=create\nEOF\nX", 104),
        ("STATE=OPEN\nVERB=create\n", 104),
        ("STATE=OPEN\nEOF\n", 104),
        ("", 104),
    ];
    for (text, want) in cases {
        assert_eq!(rt; number_of(rt.alloc(), text.as_bytes()), want, "{text}");
    }
}

// Steps, their keys, and their values behind a domain, an image and a volume.
#[test]
fn steps_of_texts(rt: HostRuntime) -> Result<(), AllocError> {
    let long =
        "dddddddddddddddddddddddddddddddddddddddddddddddddddddddddddddddddddddddddddddddddddddddddddddddddddd";
    let longer =
        "ddddddddddddddddddddddddddddddddddddddddddddddddddddddddddddddddddddddddddddddddddddddddddddddddddddd";
    let cases = [
        (["FinishExtend ", HEAD, "512", ""], 0),
        (["FinishExtend ", HEAD, "1099511627776", ""], 0),
        (["FinishExtend ", HEAD, "0512", ""], 104),
        (["FinishExtend ", HEAD, "513", ""], 104),
        (["FinishExtend ", HEAD, "0", ""], 104),
        (["FinishExtend ", HEAD, "1099511628288", ""], 104),
        (["FinishDescribe ", HEAD, "-", ""], 0),
        (["FinishDescribe ", HEAD, long, long], 0),
        (["FinishDescribe ", HEAD, longer, long], 104),
        (["FinishDescribe ", HEAD, "", ""], 104),
        (["FinishDescribe ", HEAD, "a b", ""], 104),
        (["FinishDescribe ", HEAD, "\u{7f}", ""], 104),
        (["SetLeaf ", HEAD, "", ""], 104),
        (["SetLeaf  ", HEAD, "", ""], 104),
        (["Remove ", HEAD, "", ""], 104),
        (["DropDomain", "", "", ""], 104),
        (
            [
                "DropDomain ",
                "00000000-0000-4000-8000-0000000000AB",
                "",
                "",
            ],
            0,
        ),
        (
            ["DropDomain ", "00000000-0000-4000-8000-0000000000A", "", ""],
            104,
        ),
        (
            [
                "DropDomain ",
                "00000000-0000-4000-8000-000000000002",
                "\nSTEP01=DropDomain ",
                "00000000-0000-4000-8000-000000000003",
            ],
            0,
        ),
        (
            [
                "DropDomain ",
                "00000000-0000-4000-8000-000000000002",
                "\nSTEP02=DropDomain ",
                "00000000-0000-4000-8000-000000000003",
            ],
            104,
        ),
    ];
    for (parts, want) in cases {
        let text = with_step(rt.alloc(), &parts)?;
        assert_eq!(rt; number_of(rt.alloc(), &text), want);
    }
    Ok(())
}
