// What no clause says: each move and each refusal over a disk in memory, hosts that race for a sector, a fault in an
// exchange, and whole scans.
use lease_area::{Kind, LeaseRecord, Scan, Scanned, Sector, empty_task, free_task, take};
use memory_disk::Memory;
use sd_names::{Dir, HostId, Id, Name, NoMemory, Place, Refusal, Turn, UpSet};
use shared_disk::{DiskAnswer, SharedDisk};
use std::alloc::Global;
use std::test::Fail;

const SD: Id = Id([1; 16]);

const IMAGE: Id = Id([2; 16]);

const OTHER: Id = Id([3; 16]);

const LEASES: Place = Place {
    dir: Dir::DomMd(SD),
    name: Name::Leases,
};

// The last version.
const LAST: u64 = (1 << 63) - 1;

// A sector in short: empty, or a lease by its kind, owner, version and image.
#[derive(Clone, Copy, Debug)]
enum Short {
    Empty,
    Free(u64, Id),
    Guest(u8, u64, Id),
    Task(u8, u64, Id),
}

// What host 1 does with a sector.
#[derive(Clone, Copy, Debug)]
enum Call {
    Take(Kind),
    // Takes it for a guest and releases it; this stands there by then.
    Release(Short),
    // Takes it for a task and clears it.
    Clear,
    FreeTask,
    EmptyTask,
}

// The sector that is meant; an empty one where there is none such.
fn sector(short: Short) -> Sector {
    match short {
        Short::Free(version, image) if version <= LAST => Sector::Lease(LeaseRecord {
            kind: Kind::Free,
            owner: 0,
            version,
            image,
        }),
        Short::Guest(owner, version, image) if 1 <= owner && owner <= 250 && version <= LAST => {
            Sector::Lease(LeaseRecord {
                kind: Kind::Guest,
                owner,
                version,
                image,
            })
        }
        Short::Task(owner, version, image) if 1 <= owner && owner <= 250 && version <= LAST => {
            Sector::Lease(LeaseRecord {
                kind: Kind::Task,
                owner,
                version,
                image,
            })
        }
        _ => Sector::Empty,
    }
}

// A leases file of empty sectors, by a host, on a disk that fails in this call, from 0; it takes the calls 0 to 3.
fn make_leases(alloc: Global, host: HostId, failing: u64) -> Result<Memory, NoMemory> {
    let mut list = Vec::new(alloc);
    if list.push(failing).is_err() {
        return Err(NoMemory);
    }
    let mut disk = Memory::new(alloc, Vec::new(alloc), list, 2000)?;
    let _ = disk.make_dir(host, Dir::Domain(SD));
    let _ = disk.make_dir(host, Dir::DomMd(SD));
    let _ = disk.create(host, LEASES, 524_288);
    let _ = disk.sync(host, LEASES);
    Ok(disk)
}

// Puts a sector into the leases file.
fn put(disk: &mut Memory, host: HostId, slot: u16, short: Short) -> Result<(), DiskAnswer> {
    disk.write_at(host, LEASES, 512 * u64::from(slot), &sector(short).write())?;
    disk.sync(host, LEASES)
}

// What stands in a sector.
fn stands(disk: &mut Memory, host: HostId, slot: u16) -> Option<Sector> {
    let mut bytes = [7; 512];
    match disk.read_at(host, LEASES, 512 * u64::from(slot), &mut bytes) {
        Ok(512) => Sector::read(&bytes),
        _ => None,
    }
}

// The number of a refusal; 0 where there is none.
fn number(answer: Result<(), Refusal>) -> u16 {
    match answer {
        Ok(()) => 0,
        Err(refusal) => refusal.number(),
    }
}

// Makes a call with the sector as it was read: the refusal's number, 0 where there is none.
fn make(host: HostId, up: &UpSet, slot: u16, read: Sector, call: Call, disk: &mut Memory) -> u16 {
    if slot == 0 {
        return match take(host, up, SD, 0, &read, Kind::Guest, Id::ZERO, disk) {
            Ok(lease) => {
                lease.lost();
                0
            }
            Err(refusal) => refusal.number(),
        };
    }
    if slot >= 1024 {
        return 0;
    }
    match call {
        Call::Take(Kind::Task) | Call::Clear => {
            match take(host, up, SD, slot, &read, Kind::Task, IMAGE, disk) {
                Ok(lease) => match call {
                    Call::Clear => number(lease.clear(host, disk)),
                    _ => {
                        lease.lost();
                        0
                    }
                },
                Err(refusal) => refusal.number(),
            }
        }
        Call::Take(_) => match take(host, up, SD, slot, &read, Kind::Guest, IMAGE, disk) {
            Ok(lease) => {
                lease.lost();
                0
            }
            Err(refusal) => refusal.number(),
        },
        Call::Release(then) => match take(host, up, SD, slot, &read, Kind::Guest, IMAGE, disk) {
            Ok(lease) => {
                let _ = put(disk, host, slot, then);
                number(lease.release(host, disk))
            }
            Err(refusal) => refusal.number(),
        },
        Call::FreeTask | Call::EmptyTask => match read {
            Sector::Lease(held) => match held.kind {
                Kind::Task => match call {
                    Call::FreeTask => number(free_task(host, SD, slot, held, disk)),
                    _ => number(empty_task(host, SD, slot, held, disk)),
                },
                Kind::Free | Kind::Guest => 0,
            },
            Sector::Empty => 0,
        },
    }
}

#[test]
fn sectors_and_their_bytes(rt: HostRuntime) {
    // The bytes are written out as the table of the format says.
    let mut bytes = [0; 512];
    bytes[..16].copy_from_slice(&[0x4c, 0x45, 0x41, 0x53, 1, 7, 0, 0, 0, 0, 0, 0, 0, 0, 1, 2]);
    bytes[16..32].copy_from_slice(&IMAGE.0);
    let guest = sector(Short::Guest(7, 258, IMAGE));
    assert!(rt; guest.write() == bytes);
    assert!(rt; Sector::read(&bytes) == Some(guest));
    assert!(rt; Sector::read(&[0; 512]) == Some(Sector::Empty));
    for (at, byte) in [
        (0, 0),
        (4, 3),
        (4, 0),
        (5, 0),
        (5, 251),
        (6, 1),
        (8, 0x80),
        (32, 1),
        (511, 1),
    ] {
        let mut wrong = bytes;
        wrong[at] = byte;
        assert!(rt; Sector::read(&wrong).is_none(), "{byte} at {at}");
    }
}

// A free lease, one of the last version, a task's, and the role as another host has it.
const FREE: Short = Short::Free(4, IMAGE);

const LATEST: Short = Short::Free(LAST, IMAGE);

const TASK: Short = Short::Task(3, 4, IMAGE);

const ROLE: Short = Short::Guest(3, 4, Id::ZERO);

const GUEST: Call = Call::Take(Kind::Guest);

// The sector's number, what was read there and what stands there, the call, its refusal, and what stands there after it.
type Row = (u16, Short, Short, Call, u16, Short);

const ROWS: [Row; 24] = [
    (5, FREE, FREE, GUEST, 0, Short::Guest(1, 5, IMAGE)),
    (
        5,
        FREE,
        FREE,
        Call::Take(Kind::Task),
        0,
        Short::Task(1, 5, IMAGE),
    ),
    (5, LATEST, LATEST, GUEST, 0, Short::Guest(1, LAST, IMAGE)),
    (
        5,
        Short::Empty,
        Short::Empty,
        Call::Take(Kind::Task),
        0,
        Short::Task(1, 1, IMAGE),
    ),
    (5, Short::Empty, Short::Empty, GUEST, 50, Short::Empty),
    (
        5,
        Short::Guest(1, 4, IMAGE),
        Short::Guest(1, 4, IMAGE),
        GUEST,
        0,
        Short::Guest(1, 5, IMAGE),
    ),
    (
        5,
        Short::Guest(3, 4, IMAGE),
        Short::Guest(3, 4, IMAGE),
        GUEST,
        0,
        Short::Guest(1, 5, IMAGE),
    ),
    (
        5,
        Short::Guest(2, 4, IMAGE),
        Short::Guest(2, 4, IMAGE),
        GUEST,
        52,
        Short::Guest(2, 4, IMAGE),
    ),
    (5, TASK, TASK, Call::Take(Kind::Task), 52, TASK),
    (
        5,
        FREE,
        Short::Free(6, IMAGE),
        GUEST,
        52,
        Short::Free(6, IMAGE),
    ),
    (
        5,
        FREE,
        Short::Guest(2, 5, IMAGE),
        GUEST,
        52,
        Short::Guest(2, 5, IMAGE),
    ),
    (
        5,
        FREE,
        Short::Free(4, OTHER),
        GUEST,
        50,
        Short::Free(4, OTHER),
    ),
    (5, FREE, Short::Empty, GUEST, 50, Short::Empty),
    (
        0,
        Short::Empty,
        Short::Empty,
        GUEST,
        0,
        Short::Guest(1, 1, Id::ZERO),
    ),
    (0, ROLE, ROLE, GUEST, 0, Short::Guest(1, 5, Id::ZERO)),
    (
        0,
        Short::Guest(2, 4, Id::ZERO),
        Short::Guest(2, 4, Id::ZERO),
        GUEST,
        41,
        Short::Guest(2, 4, Id::ZERO),
    ),
    (0, Short::Empty, ROLE, GUEST, 43, ROLE),
    (
        0,
        Short::Empty,
        Short::Free(4, Id::ZERO),
        GUEST,
        42,
        Short::Free(4, Id::ZERO),
    ),
    (
        5,
        FREE,
        FREE,
        Call::Release(Short::Guest(1, 5, IMAGE)),
        0,
        Short::Free(5, IMAGE),
    ),
    (
        5,
        FREE,
        FREE,
        Call::Release(Short::Guest(9, 6, IMAGE)),
        41,
        Short::Guest(9, 6, IMAGE),
    ),
    (5, FREE, FREE, Call::Clear, 0, Short::Empty),
    (5, TASK, TASK, Call::FreeTask, 0, Short::Free(4, IMAGE)),
    (5, TASK, TASK, Call::EmptyTask, 0, Short::Empty),
    (
        5,
        TASK,
        Short::Free(4, IMAGE),
        Call::EmptyTask,
        41,
        Short::Free(4, IMAGE),
    ),
];

// Whether a call has the refusal of its row, and leaves the sector as the row says.
fn row_holds(alloc: Global, host: HostId, up: &UpSet, row: Row) -> Result<bool, NoMemory> {
    let (slot, read, there, call, refusal, left) = row;
    let mut disk = make_leases(alloc, host, u64::MAX)?;
    if put(&mut disk, host, slot, there).is_err() {
        return Ok(false);
    }
    let got = make(host, up, slot, sector(read), call, &mut disk);
    Ok(got == refusal && stands(&mut disk, host, slot) == Some(sector(left)))
}

#[test]
fn each_call(rt: HostRuntime) -> Result<(), Fail> {
    let host = HostId::new(1).ok_or("1")?;
    let mut up = UpSet::new();
    up.add(host);
    up.add(HostId::new(2).ok_or("2")?);
    for (at, row) in ROWS.into_iter().enumerate() {
        assert!(rt; row_holds(rt.alloc(), host, &up, row)?, "row {at}");
    }
    Ok(())
}

#[test]
fn no_sector_and_a_fault(rt: HostRuntime) -> Result<(), Fail> {
    let host = HostId::new(1).ok_or("1")?;
    let up = UpSet::new();
    // Bytes that are no sector, in sector 0.
    let mut disk = make_leases(rt.alloc(), host, u64::MAX)?;
    disk.write_at(host, LEASES, 0, &[7; 512])?;
    disk.sync(host, LEASES)?;
    assert!(rt; make(host, &up, 0, Sector::Empty, GUEST, &mut disk) == 58);
    // The calls 0 to 3 make the file, 4 and 5 put the sector, and the exchange is the sixth.
    let mut disk = make_leases(rt.alloc(), host, 6)?;
    put(&mut disk, host, 5, FREE)?;
    assert!(rt; make(host, &up, 5, sector(FREE), GUEST, &mut disk) == 120);
    assert!(rt; stands(&mut disk, host, 5) == Some(sector(FREE)));
    Ok(())
}

// A whole scan, in how many steps.
fn scan(disk: &mut Memory, host: HostId) -> Option<(Scanned, u8)> {
    let mut buffer = [0; 65536];
    let mut work = Scan::begin(SD, IMAGE);
    for step in 1..10 {
        match work.step(host, disk, &mut buffer) {
            Turn::More(next) => work = next,
            Turn::Done(scanned) => return Some((scanned, step)),
            Turn::Ended((), _) => return None,
        }
    }
    None
}

// Takes what a scan found, for a guest: the refusal's number, 0 where there is none.
fn take_found(scanned: Scanned, host: HostId, up: &UpSet, disk: &mut Memory) -> u16 {
    match scanned.found {
        Some((slot, lease)) => make(
            host,
            up,
            slot,
            Sector::Lease(lease),
            Call::Take(Kind::Guest),
            disk,
        ),
        None => 50,
    }
}

// Puts sectors, scans, and gives what the scan found and in how many steps. Two hosts then take what it found: their
// refusals' numbers, 0 where there is none.
fn scanned(
    alloc: Global,
    host: HostId,
    two: HostId,
    up: &UpSet,
    puts: &[(u16, Short)],
) -> Result<Option<(Scanned, u8, u16, u16)>, NoMemory> {
    let mut disk = make_leases(alloc, host, u64::MAX)?;
    for (slot, short) in puts {
        if put(&mut disk, host, *slot, *short).is_err() {
            return Ok(None);
        }
    }
    match scan(&mut disk, host) {
        Some((found, steps)) => {
            let first = take_found(found, host, up, &mut disk);
            let second = take_found(found, two, up, &mut disk);
            Ok(Some((found, steps, first, second)))
        }
        None => Ok(None),
    }
}

// What is put, which sector is found, which empty one, and the refusals of two hosts that take what was found.
const SCANS: [(&[(u16, Short)], Option<u16>, Option<u16>, u16, u16); 4] = [
    (&[], None, Some(1), 50, 50),
    (&[(0, FREE)], None, Some(1), 50, 50),
    (&[(1, OTHERS), (1023, FREE)], Some(1023), Some(2), 0, 52),
    (
        &[(1, OTHERS), (2, OTHERS), (300, FREE), (200, FREE)],
        Some(200),
        Some(3),
        0,
        52,
    ),
];

const OTHERS: Short = Short::Free(4, OTHER);

#[test]
fn scans_find_the_least(rt: HostRuntime) -> Result<(), Fail> {
    let host = HostId::new(1).ok_or("1")?;
    let two = HostId::new(2).ok_or("2")?;
    let mut up = UpSet::new();
    up.add(host);
    up.add(two);
    for (puts, found, empty, first, second) in SCANS {
        let (scan, steps, one, other) = scanned(rt.alloc(), host, two, &up, puts)?.ok_or(
            "no scan",
        )?;
        assert_eq!(rt; scan.found.map(|(slot, _)| slot), found);
        assert_eq!(rt; (scan.empty, steps, one, other), (empty, 8, first, second));
    }
    let mut disk = Memory::new(rt.alloc(), Vec::new(rt.alloc()), Vec::new(rt.alloc()), 10)?;
    assert!(rt; scan(&mut disk, host).is_none());
    Ok(())
}
