// What no clause says: whole reads and writes over a disk in memory, one after the other, and a disk that fails.
use memory_disk::Memory;
use raw_layer::{Raw, RawRead, RawWrite};
use sd_names::{Dir, HostId, Id, Name, NoMemory, Place, Refusal, Turn};
use shared_disk::{DiskAnswer, SharedDisk};
use std::alloc::Global;
use std::test::Fail;

// A call of two sectors, from a sector of the volume on.
#[derive(Clone, Copy, Debug)]
enum Call {
    // A write of the byte, by one host, where the file had so many sectors when it was asked.
    Write(u8, u8, u8),
    // A read, by another host.
    Read(u8),
}

#[derive(Clone, Copy, Debug, PartialEq, Eq)]
enum Answer {
    // A write took so many steps.
    Written(u8),
    // The last byte of each of the two sectors.
    Bytes(u8, u8),
    // The file's length, and the part's end.
    NoRoom(u64, u64),
    // A disk's fault, with its count.
    Fault(u64),
    // Any other refusal, by its number.
    Refused(u16),
}

const FILE: Place = Place {
    dir: Dir::Image(Id::ZERO, Id::ZERO),
    name: Name::Volume(Id::ZERO),
};

const ABSENT: Place = Place {
    dir: Dir::Image(Id::ZERO, Id::ZERO),
    name: Name::Metadata,
};

fn refused(refusal: Refusal) -> Answer {
    match refusal {
        Refusal::NoRoom(_, length, end) => Answer::NoRoom(length, end),
        Refusal::DiskFault(count) => Answer::Fault(count),
        other => Answer::Refused(other.number()),
    }
}

// A file of four sectors, synced. It takes the disk's calls 0 to 4.
fn make_file(disk: &mut Memory, host: HostId) -> Result<(), DiskAnswer> {
    disk.make_dir(host, Dir::Domain(Id::ZERO))?;
    disk.make_dir(host, Dir::Images(Id::ZERO))?;
    disk.make_dir(host, Dir::Image(Id::ZERO, Id::ZERO))?;
    disk.create(host, FILE, 2048)?;
    disk.sync(host, FILE)
}

fn write(disk: &mut Memory, host: HostId, raw: &Raw, at: u8, part: &[u8; 1024]) -> Answer {
    let second = match RawWrite::begin(raw, 512 * at as u64).step(host, disk, part) {
        Turn::More(next) => next,
        Turn::Done(()) => return Answer::Written(1),
        Turn::Ended((), refusal) => return refused(refusal),
    };
    let third = match second.step(host, disk, part) {
        Turn::More(next) => next,
        Turn::Done(()) => return Answer::Written(2),
        Turn::Ended((), refusal) => return refused(refusal),
    };
    match third.step(host, disk, part) {
        Turn::More(_) => Answer::Written(4),
        Turn::Done(()) => Answer::Written(3),
        Turn::Ended((), refusal) => refused(refusal),
    }
}

fn read(disk: &mut Memory, host: HostId, raw: &Raw, at: u8) -> Answer {
    let mut part = [255; 1024];
    match RawRead::begin(raw, 512 * at as u64).step(host, disk, &mut part) {
        Turn::More(_) => Answer::Written(1),
        Turn::Done(()) => Answer::Bytes(part[511], part[1023]),
        Turn::Ended((), refusal) => refused(refusal),
    }
}

fn made(disk: &mut Memory, place: Place, call: Call) -> Option<Answer> {
    match call {
        Call::Write(known, at, byte) => {
            let raw = Raw::new(place, 8192, 512 * known as u64);
            Some(write(disk, HostId::new(1)?, &raw, at, &[byte; 1024]))
        }
        Call::Read(at) => {
            let raw = Raw::new(place, 8192, 0);
            Some(read(disk, HostId::new(2)?, &raw, at))
        }
    }
}

// Calls and their answers, one after the other.
const ROWS: [(Place, Call, Answer); 12] = [
    (FILE, Call::Read(0), Answer::Bytes(0, 0)),
    (FILE, Call::Write(4, 0, 7), Answer::Written(2)),
    (FILE, Call::Write(0, 2, 8), Answer::Written(3)),
    (FILE, Call::Read(0), Answer::Bytes(7, 7)),
    (FILE, Call::Read(1), Answer::Bytes(7, 8)),
    (FILE, Call::Write(4, 3, 9), Answer::NoRoom(2048, 2560)),
    (FILE, Call::Write(0, 3, 9), Answer::NoRoom(2048, 2560)),
    (FILE, Call::Read(3), Answer::Bytes(8, 0)),
    (FILE, Call::Read(4), Answer::Bytes(0, 0)),
    (FILE, Call::Read(200), Answer::Bytes(0, 0)),
    (ABSENT, Call::Read(0), Answer::Refused(122)),
    (ABSENT, Call::Write(0, 0, 7), Answer::Refused(122)),
];

// The number of the first call that is answered otherwise.
fn first_wrong(disk: &mut Memory) -> Option<usize> {
    for (i, (place, call, want)) in ROWS.iter().enumerate() {
        if made(disk, *place, *call) != Some(*want) {
            return Some(i);
        }
    }
    None
}

#[test]
fn what_is_written_is_read_and_zeros_past_the_end(rt: HostRuntime) -> Result<(), Fail> {
    let alloc = rt.alloc();
    let mut disk = Memory::new(alloc, Vec::new(alloc), Vec::new(alloc), 20)?;
    let host = HostId::new(1).ok_or("a host")?;
    assert_eq!(rt; make_file(&mut disk, host), Ok(()));
    assert_eq!(rt; first_wrong(&mut disk), None);
    assert_eq!(rt; Raw::new(FILE, 8192, 0).capacity(), 8192);
    Ok(())
}

const WRITE: Call = Call::Write(0, 0, 7);

// The number of the call that fails, what is done, and its answer when it is done again.
const FAULTS: [(u64, Call, Answer); 4] = [
    (5, WRITE, Answer::Written(3)),
    (6, WRITE, Answer::Written(3)),
    (7, WRITE, Answer::Written(3)),
    (5, Call::Read(0), Answer::Bytes(0, 0)),
];

// What is done on a disk with a file of which that call fails, twice.
fn made_twice(
    alloc: Global,
    host: HostId,
    failing: u64,
    call: Call,
) -> Result<[Option<Answer>; 2], NoMemory> {
    let mut list = Vec::new(alloc);
    if list.push(failing).is_err() {
        return Err(NoMemory);
    }
    let mut disk = Memory::new(alloc, Vec::new(alloc), list, 20)?;
    if make_file(&mut disk, host).is_err() {
        return Ok([None, None]);
    }
    let first = made(&mut disk, FILE, call);
    Ok([first, made(&mut disk, FILE, call)])
}

// The disk fails at the length, at the write, at the sync, and at a read; the same call is made again.
#[test]
fn a_fault_of_each_call(rt: HostRuntime) -> Result<(), Fail> {
    let host = HostId::new(1).ok_or("a host")?;
    for (failing, call, then) in FAULTS {
        let answers = made_twice(rt.alloc(), host, failing, call)?;
        assert_eq!(rt; answers, [Some(Answer::Fault(1)), Some(then)], "{call:?}");
    }
    Ok(())
}
