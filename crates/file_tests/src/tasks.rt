// What no clause says: whole lives of a task's file over a disk in memory, and a disk that fails and a host that goes down
// at each of their calls.
ghost use Rattle.std.specs.Prelude.{IfOk};
ghost use Rattle.task_store.specs.TaskText.{IsTask};

use memory_disk::{Memory, Pick};
use sd_names::{Dir, HostId, Id, Name, NoMemory, Place, Refusal, TaskState, Turn, VerbName};
use shared_disk::{DiskAnswer, SharedDisk};
use std::alloc::Global;
use std::test::Fail;
use task_files::{TaskWrite, read_task, remove_task};
use task_store::{Steps, Task, Undo};
use whole_file::{ROOM, Text, read_text};

const SD: Id = Id([0, 0, 0, 0, 0, 0, 0x40, 0, 0x80, 0, 0, 0, 0, 0, 0, 2]);

const TASK: Id = Id([0, 0, 0, 0, 0, 0, 0x40, 0, 0x80, 0, 0, 0, 0, 0, 2, 1]);

const FILE: Place = Place {
    dir: Dir::Tasks(SD),
    name: Name::Task(TASK),
};

const OPEN: &[u8] =
    b"STATE=OPEN\nSTEP00=DropDomain 00000000-0000-4000-8000-000000000002\nVERB=add-domain\nEOF\n";

const DONE: &[u8] = b"STATE=DONE\nVERB=add-domain\nEOF\n";

const UNDONE: &[u8] = b"STATE=UNDONE\nVERB=add-domain\nEOF\n";

fn make_folders(disk: &mut Memory, host: HostId) -> Result<(), DiskAnswer> {
    disk.make_dir(host, Dir::Domain(SD))?;
    disk.make_dir(host, Dir::Master(SD))?;
    disk.make_dir(host, Dir::Tasks(SD))
}

// How a write ended: the number of its refusal, or 0 where it was done; and after how many steps.
fn write(disk: &mut Memory, host: HostId, task: &Task) -> (u16, u8)
    requires { IsTask task.now }
{
    let mut work = TaskWrite::begin(SD, task);
    for step in 1..10 {
        match work.step(host, disk, task) {
            Turn::More(next) => work = next,
            Turn::Done(()) => return (0, step),
            Turn::Ended((), refusal) => return (refusal.number(), step),
        }
    }
    (0, 0)
}

// A task that is open, with a step.
fn opened(alloc: Global) -> Result<Task, Refusal>
    ensures { IfOk result IsTask }
{
    let mut task = Task::new(alloc, TASK, VerbName::AddDomain);
    task.push_step(Undo::DropDomain { sd: SD })?;
    Ok(task)
}

fn done(alloc: Global) -> Task
    ensures { IsTask result }
{
    Task {
        id: TASK,
        verb: VerbName::AddDomain,
        state: TaskState::Done,
        steps: Steps::new(alloc),
    }
}

fn undone(alloc: Global) -> Task
    ensures { IsTask result }
{
    Task {
        id: TASK,
        verb: VerbName::AddDomain,
        state: TaskState::Undone,
        steps: Steps::new(alloc),
    }
}

// Whether the file has this text, or, without one, whether no file is there.
fn has(disk: &mut Memory, host: HostId, text: Option<&[u8]>) -> bool {
    let mut room = [0; ROOM];
    match (read_text(host, disk, FILE, &mut room), text) {
        (Ok(Text::Absent), None) => true,
        (Ok(Text::Bytes(length)), Some(text)) => room[..length] == text[..],
        _ => false,
    }
}

// The state that the file is read as, and how many steps it has; or the number of the refusal.
fn state(
    alloc: Global,
    disk: &mut Memory,
    host: HostId,
) -> Result<Option<(TaskState, usize)>, u16> {
    match read_task(alloc, host, disk, SD, TASK) {
        Ok(Some(task)) => Ok(Some((task.state, task.steps.as_slice().len()))),
        Ok(None) => Ok(None),
        Err(refusal) => Err(refusal.number()),
    }
}

#[test]
fn a_task_lives(rt: HostRuntime) -> Result<(), Fail> {
    let host = HostId::new(1).ok_or("no host")?;
    let mut disk = Memory::new(rt.alloc(), Vec::new(rt.alloc()), Vec::new(rt.alloc()), 100)?;
    make_folders(&mut disk, host)?;
    assert!(rt; state(rt.alloc(), &mut disk, host) == Ok(None));
    let Ok(open) = opened(rt.alloc()) else {
        return Err("no memory".into());
    };
    assert!(rt; write(&mut disk, host, &open) == (0, 5));
    assert!(rt; has(&mut disk, host, Some(OPEN)));
    assert!(rt; state(rt.alloc(), &mut disk, host) == Ok(Some((TaskState::Open, 1))));
    assert!(rt; write(&mut disk, host, &done(rt.alloc())) == (0, 5));
    assert!(rt; has(&mut disk, host, Some(DONE)));
    assert!(rt; state(rt.alloc(), &mut disk, host) == Ok(Some((TaskState::Done, 0))));
    assert!(rt; write(&mut disk, host, &undone(rt.alloc())) == (0, 5));
    assert!(rt; has(&mut disk, host, Some(UNDONE)));
    assert!(rt; remove_task(host, &mut disk, SD, TASK).is_ok());
    assert!(rt; has(&mut disk, host, None));
    assert!(rt;
        matches!(
            remove_task(host, &mut disk, SD, TASK),
            Err(Refusal::Vanished(_))
        )
    );
    Ok(())
}

// Whether a write of DONE over OPEN, on a disk that settles by the pick and fails in one of its five calls, ends as it
// should, and whether, once the host went down, another host finds the text that the end says and ends the task.
fn is_whole_after(alloc: Global, pick: Pick, failing: u64) -> Result<bool, NoMemory> {
    let (Some(host), Some(other)) = (HostId::new(1), HostId::new(2)) else {
        return Ok(false);
    };
    let mut picks = Vec::new(alloc);
    let mut list = Vec::new(alloc);
    // Three calls make the folders, five write OPEN, and then come those of DONE.
    if picks.push(pick).is_err() || failing < 5 && list.push(8 + failing).is_err() {
        return Err(NoMemory);
    }
    let mut disk = Memory::new(alloc, picks, list, 100)?;
    let Ok(open) = opened(alloc) else {
        return Err(NoMemory);
    };
    let begun = make_folders(&mut disk, host).is_ok() && write(&mut disk, host, &open) == (0, 5);
    let end = write(&mut disk, host, &done(alloc));
    disk.down(host);
    let (want, text) = if failing < 5 {
        ((120, failing as u8 + 1), OPEN)
    } else {
        ((0, 5), DONE)
    };
    let stands = end == want && has(&mut disk, other, Some(text));
    let ended = write(&mut disk, other, &undone(alloc)) == (0, 5)
        && has(&mut disk, other, Some(UNDONE))
        && remove_task(other, &mut disk, SD, TASK).is_ok()
        && has(&mut disk, other, None);
    Ok(begun && stands && ended)
}

#[test]
fn each_crash_leaves_a_whole_text(rt: HostRuntime) -> Result<(), Fail> {
    for pick in [Pick::Old, Pick::New, Pick::Byte(0x55)] {
        for failing in 0..6 {
            assert!(rt;
                is_whole_after(rt.alloc(), pick, failing)?,
                "{pick:?} at call {failing}"
            );
        }
    }
    Ok(())
}

// A text that isn't of the form, one that is too long, a folder that isn't there, and a fault.
#[test]
fn what_is_not_a_task_is_refused(rt: HostRuntime) -> Result<(), Fail> {
    let host = HostId::new(1).ok_or("no host")?;
    let mut list = Vec::new(rt.alloc());
    list.push(12)?;
    let mut disk = Memory::new(rt.alloc(), Vec::new(rt.alloc()), list, 100)?;
    assert!(rt; write(&mut disk, host, &done(rt.alloc())) == (122, 2));
    make_folders(&mut disk, host)?;
    disk.create(host, FILE, 9216)?;
    assert!(rt; state(rt.alloc(), &mut disk, host) == Err(104));
    disk.write_at(host, FILE, 0, &[b'x'; 9216])?;
    assert!(rt; state(rt.alloc(), &mut disk, host) == Err(104));
    disk.remove(host, FILE)?;
    assert!(rt; state(rt.alloc(), &mut disk, host) == Ok(None));
    assert!(rt; state(rt.alloc(), &mut disk, host) == Ok(None));
    assert!(rt; disk.fault_count() == 0);
    assert!(rt; state(rt.alloc(), &mut disk, host) == Err(120));
    Ok(())
}
