// What is put onto the medium past all hosts, and told of it.
use super::{Call, Row, TEXT, first_wrong, place};
use crate::Memory;
use shared_disk::DiskAnswer::{Failed, NoFile};
use shared_disk::SharedDisk;
use std::test::Fail;

// The bytes of the medium into a room of the given length, full of 255: how many, the first one and the last one.
fn told(disk: &Memory, at: u64, room: usize) -> Option<(usize, u8, u8)> {
    let mut into = [255; 1024];
    if room == 0 || room > 1024 {
        return None;
    }
    let count = disk.bytes(place(TEXT), at, &mut into[..room])?;
    Some((count, into[0], into[room - 1]))
}

// From where, into how many bytes; how many are told, the first and the last.
const TOLD: [(u64, usize, Option<(usize, u8, u8)>); 7] = [
    (0, 1024, Some((1024, 1, 2))),
    (511, 2, Some((2, 1, 2))),
    (512, 513, Some((513, 2, 3))),
    (1535, 1, Some((1, 3, 3))),
    (1535, 2, Some((1, 3, 255))),
    (1536, 1, Some((0, 255, 255))),
    (u64::MAX, 1, Some((0, 255, 255))),
];

// The number of the first that is told otherwise.
fn first_otherwise(disk: &Memory) -> Option<usize> {
    for (i, (at, room, answer)) in TOLD.iter().enumerate() {
        if told(disk, *at, *room) != *answer {
            return Some(i);
        }
    }
    None
}

// What is put takes room of its own: the one unit serves, and no more.
const ONE_UNIT: [Row; 2] = [
    (1, Call::Write(TEXT, 0, 7), Ok(0)),
    (1, Call::Write(TEXT, 1, 7), Err(Failed)),
];

const SYNCED: [Row; 1] = [(1, Call::Sync(TEXT), Ok(0))];

// Three sectors: the first is all 1, the second all 2, the third all 3.
#[test]
fn bytes_that_are_put_are_told(rt: HostRuntime) -> Result<(), Fail> {
    let alloc = rt.alloc();
    let mut disk = Memory::new(alloc, Vec::new(alloc), Vec::new(alloc), 1)?;
    assert_eq!(rt; told(&disk, 0, 1), None);
    let mut bytes = [1; 1536];
    bytes[512..1024].copy_from_slice(&[2; 512]);
    bytes[1024..1536].copy_from_slice(&[3; 512]);
    disk.put(place(TEXT), &bytes)?;
    assert_eq!(rt; first_otherwise(&disk), None);
    assert_eq!(rt; first_wrong(&mut disk, &ONE_UNIT), None);
    // The medium has the host's write once it is synced.
    assert_eq!(rt; told(&disk, 0, 1), Some((1, 1, 1)));
    assert_eq!(rt; first_wrong(&mut disk, &SYNCED), None);
    assert_eq!(rt; told(&disk, 0, 1), Some((1, 7, 7)));
    assert_eq!(rt; disk.fault_count(), 1);
    Ok(())
}

const BEFORE: [Row; 4] = [
    (1, Call::MakeDomain, Ok(0)),
    (1, Call::MakeTexts, Ok(0)),
    (1, Call::Create(TEXT, 3), Ok(0)),
    (1, Call::Write(TEXT, 0, 7), Ok(0)),
];

const AFTER: [Row; 4] = [
    (1, Call::Length(TEXT), Ok(512)),
    (1, Call::Byte(TEXT, 0), Ok(5)),
    (1, Call::Remove(TEXT), Ok(0)),
    (1, Call::Byte(TEXT, 0), Err(NoFile)),
];

const EMPTY: [Row; 1] = [(1, Call::Length(TEXT), Ok(0))];

// A file that is put again loses what was unsynced in it, and its length is that of the new bytes.
#[test]
fn a_file_is_put_again(rt: HostRuntime) -> Result<(), Fail> {
    let alloc = rt.alloc();
    let mut disk = Memory::new(alloc, Vec::new(alloc), Vec::new(alloc), 9)?;
    assert_eq!(rt; first_wrong(&mut disk, &BEFORE), None);
    disk.put(place(TEXT), &[5; 512])?;
    assert_eq!(rt; first_wrong(&mut disk, &AFTER), None);
    disk.put(place(TEXT), &[])?;
    assert_eq!(rt; first_wrong(&mut disk, &EMPTY), None);
    assert_eq!(rt; told(&disk, 0, 1), Some((0, 255, 255)));
    Ok(())
}
