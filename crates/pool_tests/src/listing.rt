// The tasks of a pool, listed and read.
use crate::role::pool;
use crate::shared::SD;
use memory_disk::Memory;
use sd_names::{Dir, HostId, Id, Name, NoMemory, Place, Refusal, TaskState, Turn};
use std::alloc::Global;
use std::test::Fail;
use task_listing::{ListedTasks, TaskListing};

const FIRST: Id = Id([0, 0, 0, 0, 0, 0, 0x40, 0, 0x80, 0, 0, 0, 0, 0, 2, 0x0a]);

const SECOND: Id = Id([0, 0, 0, 0, 0, 0, 0x40, 0, 0x80, 0, 0, 0, 0, 0, 2, 0x90]);

const THIRD: Id = Id([0xf0, 0, 0, 0, 0, 0, 0x40, 0, 0x80, 0, 0, 0, 0, 0, 2, 1]);

const OPEN: &[u8] =
    b"STATE=OPEN\nSTEP00=RemoveImage 00000000-0000-4000-8000-000000000002 00000000-0000-4000-8000-000000000003\nVERB=create\nEOF\n";

const DONE: &[u8] = b"STATE=DONE\nVERB=delete-image\nEOF\n";

const UNDONE: &[u8] = b"STATE=UNDONE\nVERB=create\nEOF\n";

// Puts a text, with zeros to the sector's end, into a file of the folder of tasks.
fn put(disk: &mut Memory, name: Name, text: &[u8]) -> Result<(), NoMemory> {
    let mut sector = [0; 512];
    if text.len() <= 512 {
        sector[..text.len()].copy_from_slice(text);
    }
    let place = Place {
        dir: Dir::Tasks(SD),
        name,
    };
    disk.put(place, &sector)
}

// Lists the tasks, and in how many steps.
fn list(alloc: Global, disk: &mut Memory, host: HostId) -> (u16, Result<ListedTasks, Refusal>) {
    let mut work = TaskListing::begin(alloc, SD);
    for step in 1..20u16 {
        match work.step(alloc, host, disk) {
            Turn::More(next) => work = next,
            Turn::Done(listed) => return (step, Ok(listed)),
            Turn::Ended((), refusal) => return (step, Err(refusal)),
        }
    }
    (0, Err(Refusal::NotBuilt))
}

// Whether just these tasks were listed, with this one open.
fn are(listed: Result<ListedTasks, Refusal>, tasks: &[(Id, TaskState)], open: Option<Id>) -> bool {
    match listed {
        Ok(listed) => {
            let found = match &listed.open_task {
                Some(task) => Some(task.id),
                None => None,
            };
            listed.tasks.as_slice() == tasks && found == open
        }
        Err(_) => false,
    }
}

#[test]
fn tasks_are_listed_in_order(rt: HostRuntime) -> Result<(), Fail> {
    let host = HostId::new(1).ok_or("1")?;
    let mut disk = pool(rt.alloc(), host, 1_000_000)?;
    let (steps, none) = list(rt.alloc(), &mut disk, host);
    assert!(rt; steps == 1 && are(none, &[], None));
    put(&mut disk, Name::Task(THIRD), UNDONE)?;
    put(&mut disk, Name::Task(SECOND), OPEN)?;
    put(&mut disk, Name::TaskNew(SECOND), b"STATE=")?;
    put(&mut disk, Name::Task(FIRST), DONE)?;
    // Four names, three texts, and that there is no further name.
    let (steps, listed) = list(rt.alloc(), &mut disk, host);
    assert!(rt; steps == 8);
    assert!(rt;
        are(
            listed,
            &[
                (FIRST, TaskState::Done),
                (SECOND, TaskState::Open),
                (THIRD, TaskState::Undone)
            ],
            Some(SECOND)
        )
    );
    Ok(())
}

#[test]
fn a_text_of_no_task_is_refused(rt: HostRuntime) -> Result<(), Fail> {
    let host = HostId::new(1).ok_or("1")?;
    let mut disk = pool(rt.alloc(), host, 1_000_000)?;
    put(&mut disk, Name::Task(FIRST), b"STATE=OPEN\nEOF\n")?;
    let (steps, listed) = list(rt.alloc(), &mut disk, host);
    let refused = match listed {
        Ok(_) => false,
        Err(refusal) => refusal.number() == 104,
    };
    assert!(rt; steps == 2 && refused);
    Ok(())
}

// A fault in each of the three calls of a listing of one task, those behind the 21 of the pool.
#[test]
fn each_fault_of_a_listing_is_told(rt: HostRuntime) -> Result<(), Fail> {
    let host = HostId::new(1).ok_or("1")?;
    for call in 21..24 {
        let mut disk = pool(rt.alloc(), host, call)?;
        put(&mut disk, Name::Task(FIRST), OPEN)?;
        let (_, failed) = list(rt.alloc(), &mut disk, host);
        let told = match failed {
            Ok(_) => false,
            Err(refusal) => refusal.text().as_bytes() == b"120 DiskFault 1".as_slice(),
        };
        let (steps, again) = list(rt.alloc(), &mut disk, host);
        assert!(rt; told, "call {call}");
        assert!(rt;
            steps == 3 && are(again, &[(FIRST, TaskState::Open)], Some(FIRST)),
            "call {call}"
        );
    }
    Ok(())
}
