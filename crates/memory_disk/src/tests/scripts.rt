// What the memory disk answers one call after the other, in room that is enough and to the last unit of it.
use super::{Call, NEW, NONE, Row, TEXT, first_wrong};
use crate::{Memory, Pick};
use sd_names::NoMemory;
use shared_disk::DiskAnswer::{Exists, Failed, NoFile, NotEmpty, OutOfFile};
use shared_disk::SharedDisk;
use std::alloc::Global;
use std::test::Fail;

// Each answer of each call on a file.
const ON_FILES: [Row; 23] = [
    (1, Call::MakeTexts, Err(NoFile)),
    (1, Call::MakeDomain, Ok(0)),
    (1, Call::MakeDomain, Err(Exists)),
    (1, Call::Create(TEXT, 2), Err(NoFile)),
    (1, Call::MakeTexts, Ok(0)),
    (1, Call::Create(TEXT, 2), Ok(0)),
    (2, Call::Create(TEXT, 1), Err(Exists)),
    (2, Call::Length(TEXT), Ok(1024)),
    (2, Call::Length(NONE), Err(NoFile)),
    (1, Call::Write(TEXT, 1, 7), Ok(0)),
    (1, Call::WriteTwo(TEXT, 1), Err(OutOfFile)),
    (1, Call::Write(NONE, 0, 7), Err(NoFile)),
    (1, Call::Count(NONE, 0), Err(NoFile)),
    (1, Call::Count(TEXT, 0), Ok(1024)),
    (1, Call::Count(TEXT, 2), Ok(0)),
    (1, Call::Byte(TEXT, 0), Ok(0)),
    (1, Call::Byte(TEXT, 1), Ok(7)),
    (1, Call::Byte(TEXT, 2), Ok(255)),
    (2, Call::Sync(TEXT), Ok(0)),
    (2, Call::Byte(TEXT, 1), Ok(0)),
    (1, Call::Sync(TEXT), Ok(0)),
    (2, Call::Byte(TEXT, 1), Ok(7)),
    (2, Call::Sync(NONE), Err(NoFile)),
];

// Each answer of each call on a name.
const ON_NAMES: [Row; 17] = [
    (1, Call::MakeDomain, Ok(0)),
    (1, Call::MakeTexts, Ok(0)),
    (1, Call::Grow(TEXT, 2), Err(NoFile)),
    (1, Call::Rename, Err(NoFile)),
    (1, Call::Remove(TEXT), Err(NoFile)),
    (1, Call::Exchange(TEXT, 0, 0, 7), Err(NoFile)),
    (1, Call::Create(TEXT, 1), Ok(0)),
    (1, Call::Exchange(TEXT, 1, 0, 7), Err(OutOfFile)),
    // A host's own write is what it expects; another's is not.
    (1, Call::Write(TEXT, 0, 5), Ok(0)),
    (1, Call::Exchange(TEXT, 0, 0, 7), Ok(5)),
    (2, Call::Exchange(TEXT, 0, 5, 7), Ok(0)),
    (1, Call::Exchange(TEXT, 0, 5, 7), Ok(1000)),
    (2, Call::Byte(TEXT, 0), Ok(7)),
    // A longer file ends in zeros; no call makes it shorter.
    (2, Call::Grow(TEXT, 3), Ok(0)),
    (1, Call::Byte(TEXT, 2), Ok(0)),
    (2, Call::Grow(TEXT, 1), Ok(0)),
    (1, Call::Length(TEXT), Ok(1536)),
];

// Names and folders come, go and move.
const NAMES: [Row; 28] = [
    (1, Call::MakeDomain, Ok(0)),
    (1, Call::MakeTexts, Ok(0)),
    (1, Call::Create(TEXT, 3), Ok(0)),
    (1, Call::Write(TEXT, 1, 6), Ok(0)),
    (1, Call::Create(NEW, 1), Ok(0)),
    (1, Call::Write(NEW, 0, 9), Ok(0)),
    // A rename takes the unsynced writes along, and the file that had the name is gone.
    (2, Call::Rename, Ok(0)),
    (1, Call::Length(TEXT), Err(NoFile)),
    (1, Call::Byte(NEW, 0), Ok(0)),
    (1, Call::Byte(NEW, 1), Ok(6)),
    (2, Call::Byte(NEW, 1), Ok(0)),
    (1, Call::RemoveTexts, Err(NotEmpty)),
    (1, Call::Remove(NEW), Ok(0)),
    // A new file has none of the sectors of those that were removed.
    (1, Call::Create(TEXT, 3), Ok(0)),
    (1, Call::Byte(TEXT, 0), Ok(0)),
    (1, Call::Byte(TEXT, 1), Ok(0)),
    (1, Call::Remove(TEXT), Ok(0)),
    (1, Call::RemoveDomain, Err(NotEmpty)),
    (1, Call::RemoveTexts, Ok(0)),
    (1, Call::RemoveTexts, Err(NoFile)),
    (1, Call::MoveImage, Err(NoFile)),
    (1, Call::MakeImages, Ok(0)),
    (1, Call::MakeImage, Ok(0)),
    (1, Call::MoveImage, Ok(0)),
    (1, Call::MakeImage, Ok(0)),
    (1, Call::MoveImage, Err(Exists)),
    (1, Call::RemoveRemoved, Ok(0)),
    (1, Call::MakeRemoved, Ok(0)),
];

// Four units: an exchange needs a unit only where the sector is neither on the medium nor written.
const LAST_EXCHANGE: [Row; 9] = [
    (1, Call::MakeDomain, Ok(0)),
    (1, Call::MakeTexts, Ok(0)),
    (1, Call::Create(TEXT, 2), Ok(0)),
    (1, Call::Write(TEXT, 0, 7), Ok(0)),
    (1, Call::Exchange(TEXT, 1, 0, 5), Err(Failed)),
    (1, Call::Exchange(TEXT, 1, 5, 6), Ok(0)),
    (1, Call::Exchange(TEXT, 0, 7, 5), Ok(1000)),
    (1, Call::Exchange(TEXT, 0, 5, 6), Ok(1000)),
    (1, Call::Byte(TEXT, 1), Ok(0)),
];

// The calls 1, 3 and 5 fail, and change nothing; each is made again. Six units hold all.
const LISTED: [Row; 9] = [
    (1, Call::MakeDomain, Ok(0)),
    (1, Call::MakeTexts, Err(Failed)),
    (1, Call::MakeTexts, Ok(0)),
    (1, Call::Create(TEXT, 1), Err(Failed)),
    (1, Call::Create(TEXT, 1), Ok(0)),
    (1, Call::Write(TEXT, 0, 7), Err(Failed)),
    (1, Call::Byte(TEXT, 0), Ok(0)),
    (1, Call::Write(TEXT, 0, 7), Ok(0)),
    (1, Call::Byte(TEXT, 0), Ok(7)),
];

// Two folders, a file and a sector are four units.
const LAST_UNIT: [Row; 11] = [
    (1, Call::MakeDomain, Ok(0)),
    (1, Call::MakeTexts, Ok(0)),
    (1, Call::Create(TEXT, 2), Ok(0)),
    (1, Call::WriteTwo(TEXT, 0), Err(Failed)),
    (1, Call::Write(TEXT, 0, 7), Ok(0)),
    (1, Call::Write(TEXT, 0, 8), Err(Failed)),
    (1, Call::Byte(TEXT, 0), Ok(7)),
    (1, Call::Sync(TEXT), Ok(0)),
    (1, Call::Write(TEXT, 0, 8), Err(Failed)),
    (1, Call::Create(NONE, 0), Err(Failed)),
    (1, Call::Byte(TEXT, 0), Ok(7)),
];

// Two folders, a file of four sectors and one write are four units of six: where each pick is the byte 9, two sectors
// more are filled when the host goes down.
const FILLED: [Row; 12] = [
    (1, Call::MakeDomain, Ok(0)),
    (1, Call::MakeTexts, Ok(0)),
    (1, Call::Create(TEXT, 4), Ok(0)),
    (1, Call::Write(TEXT, 0, 7), Ok(0)),
    (1, Call::Down, Ok(0)),
    (1, Call::Byte(TEXT, 0), Ok(9)),
    (1, Call::Byte(TEXT, 1), Ok(9)),
    (1, Call::Byte(TEXT, 2), Ok(9)),
    (1, Call::Byte(TEXT, 3), Ok(0)),
    (1, Call::Create(NONE, 0), Err(Failed)),
    (1, Call::Remove(TEXT), Ok(0)),
    (1, Call::Create(NONE, 0), Ok(0)),
];

// The number of the first wrong answer of a disk with these picks, failing calls and room, and its count of faults.
fn played(
    alloc: Global,
    picks: Vec<Pick>,
    failing: Vec<u64>,
    room: u64,
    rows: &[Row],
) -> Result<(Option<usize>, u64), NoMemory> {
    let mut disk = Memory::new(alloc, picks, failing, room)?;
    let wrong = first_wrong(&mut disk, rows);
    Ok((wrong, disk.fault_count()))
}

// The same of one with room alone.
fn played_in(alloc: Global, room: u64, rows: &[Row]) -> Result<(Option<usize>, u64), NoMemory> {
    played(alloc, Vec::new(alloc), Vec::new(alloc), room, rows)
}

#[test]
fn each_answer_of_each_call(rt: HostRuntime) -> Result<(), Fail> {
    let alloc = rt.alloc();
    assert_eq!(rt; played_in(alloc, 10, &ON_FILES)?, (None, 0));
    assert_eq!(rt; played_in(alloc, 12, &ON_NAMES)?, (None, 0));
    assert_eq!(rt; played_in(alloc, 12, &NAMES)?, (None, 0));
    Ok(())
}

#[test]
fn room_to_the_last_unit_and_listed_calls(rt: HostRuntime) -> Result<(), Fail> {
    let alloc = rt.alloc();
    assert_eq!(rt; played_in(alloc, 4, &LAST_EXCHANGE)?, (None, 1));
    assert_eq!(rt; played_in(alloc, 4, &LAST_UNIT)?, (None, 4));
    let failing = [1, 3, 5].to_vec(alloc)?;
    let listed = played(alloc, Vec::new(alloc), failing, 6, &LISTED)?;
    assert_eq!(rt; listed, (None, 3));
    let picks = [Pick::Byte(9)].to_vec(alloc)?;
    let filled = played(alloc, picks, Vec::new(alloc), 6, &FILLED)?;
    assert_eq!(rt; filled, (None, 1));
    Ok(())
}
