// The file of a new layer, made over a disk in memory: its bytes, and a disk that fails and a host that goes down at each
// call. The bytes were written by hand from the qcow2 specification.
use super::{FILE, GIB, NAME, VOLUME, lay, lay_number, open_layer, over_raw};
use layer_creating::{Backing, Creating};
use memory_disk::{Memory, Pick};
use qcow_layer::Layer;
use sd_names::{Dir, Format, HostId, Id, Name, NoMemory, Place, Refusal, Turn};
use shared_disk::{DiskAnswer, SharedDisk};
use std::alloc::{AllocError, Global};
use std::test::Fail;

const LENGTH: u64 = 1_310_720;

const PARENT: Id = Id([0, 0, 0, 0, 0, 0, 0x40, 0, 0x80, 0, 0, 0, 0, 0, 1, 1]);

// A file beside the layer's.
const BESIDE: Place = Place {
    dir: Dir::Image(Id([1; 16]), Id([2; 16])),
    name: Name::Volume(PARENT),
};

// How a making ended: after so many steps, or by a refusal with this number in the step with this number from 1.
#[derive(Clone, Copy, Debug, PartialEq, Eq)]
enum End {
    Done(u8),
    Refused(u8, u16),
    // The host stopped before this step.
    Stopped,
}

// What the layer lies over: a volume of this format.
fn over(format: Option<Format>) -> Option<Backing> {
    match format {
        Some(format) => Some(Backing {
            parent: PARENT,
            format,
        }),
        None => None,
    }
}

// The layer of such a file, without reading it.
fn fresh_layer(alloc: Global, capacity: u64, format: Option<Format>) -> Result<Layer, Refusal> {
    if capacity < 512 || capacity > GIB {
        return Err(Refusal::NotBuilt);
    }
    Layer::fresh(
        alloc,
        VOLUME,
        FILE,
        capacity,
        capacity,
        over(format),
        LENGTH,
    )
}

// Makes the file; the host stops before the step with this number from 1.
fn make(disk: &mut Memory, host: HostId, capacity: u64, format: Option<Format>, stop: u8) -> End {
    if capacity < 512 || capacity > GIB {
        return End::Stopped;
    }
    let mut work = Creating::begin(FILE, capacity, over(format), LENGTH);
    for step in 1..stop {
        match work.step(host, disk) {
            Turn::More(next) => work = next,
            Turn::Done(()) => return End::Done(step),
            Turn::Ended((), refusal) => return End::Refused(step, refusal.number()),
        }
    }
    End::Stopped
}

// A disk with the image's folder, which takes the calls 0 to 2, and another file there. It fails in this call.
fn folder(alloc: Global, host: HostId, failing: u64, pick: Pick) -> Result<Memory, NoMemory> {
    let mut list = Vec::new(alloc);
    let mut picks = Vec::new(alloc);
    if list.push(failing).is_err() || picks.push(pick).is_err() {
        return Err(NoMemory);
    }
    let mut disk = Memory::new(alloc, picks, list, 4000)?;
    if let Dir::Image(sd, _) = FILE.dir {
        let _ = disk.make_dir(host, Dir::Domain(sd));
        let _ = disk.make_dir(host, Dir::Images(sd));
    }
    let _ = disk.make_dir(host, FILE.dir);
    disk.put(BESIDE, &[7; 512])?;
    Ok(disk)
}

// Whether the medium has exactly these bytes in the layer's file, and the file beside it as it was.
fn stands(disk: &Memory, file: &[u8]) -> bool {
    let mut beside = [0; 512];
    if disk.bytes(BESIDE, 0, &mut beside) != Some(512) || beside != [7; 512] {
        return false;
    }
    let mut room = [1; 65_536];
    for k in 0..20 {
        let at = 65_536 * k;
        if file.len() < at + 65_536 || disk.bytes(FILE, at as u64, &mut room) != Some(65_536) {
            return false;
        }
        if room[..] != file[at..at + 65_536] {
            return false;
        }
    }
    file.len() == 1_310_720 && disk.bytes(FILE, LENGTH, &mut room) == Some(0)
}

// The file of a layer of 131,072 bytes without a backing file.
fn plain(alloc: Global) -> Result<Vec<u8>, AllocError> {
    let mut file = over_raw(alloc)?;
    lay(&mut file, 8, &[0; 12]);
    lay_number(&mut file, 24, 8, 131_072);
    lay_number(&mut file, 36, 4, 1);
    lay(&mut file, 104, &[0; 16]);
    lay(&mut file, 64_512, &[0; 36]);
    Ok(file)
}

// The file of a layer of 512 bytes over another layer.
fn over_layer(alloc: Global) -> Result<Vec<u8>, AllocError> {
    let mut file = over_raw(alloc)?;
    lay_number(&mut file, 24, 8, 512);
    lay_number(&mut file, 36, 4, 1);
    lay(&mut file, 104, b"\xe2\x79\x2a\xca\0\0\0\x05qcow2\0\0\0");
    Ok(file)
}

#[test]
fn made_files_byte_by_byte(rt: HostRuntime) -> Result<(), Fail> {
    let host = HostId::new(1).ok_or("no host")?;
    let rows = [
        (GIB, Some(Format::Raw), over_raw(rt.alloc())?, 6),
        (512, Some(Format::Cow), over_layer(rt.alloc())?, 6),
        (131_072, None, plain(rt.alloc())?, 5),
    ];
    for (capacity, format, file, steps) in rows {
        let mut disk = folder(rt.alloc(), host, u64::MAX, Pick::Old)?;
        assert!(rt; make(&mut disk, host, capacity, format, 9) == End::Done(steps));
        assert!(rt; stands(&disk, &file), "{capacity} bytes");
        // It opens, as the layer that is taken without reading it.
        let fresh = fresh_layer(rt.alloc(), capacity, format)?;
        let opened = open_layer(rt.alloc(), &mut disk, host, capacity)?;
        assert!(rt; *fresh.header() == *opened.header());
        assert!(rt; fresh.parent() == opened.parent());
        assert!(rt;
            fresh.volume() == VOLUME && fresh.place() == FILE && fresh.capacity() == capacity
        );
        assert!(rt; fresh.mapped() == opened.mapped());
        for (cluster, free) in [
            (0, false),
            (3, false),
            (4, true),
            (19, true),
            (u64::MAX, false),
        ] {
            assert!(rt; fresh.is_free(cluster) == free && opened.is_free(cluster) == free);
        }
    }
    Ok(())
}

// What is in the way: another file, and no folder.
#[test]
fn files_that_cannot_be_made(rt: HostRuntime) -> Result<(), Fail> {
    let host = HostId::new(1).ok_or("no host")?;
    let mut disk = folder(rt.alloc(), host, u64::MAX, Pick::New)?;
    disk.put(FILE, &NAMED)?;
    assert!(rt; make(&mut disk, host, 512, None, 9) == End::Refused(1, 122));
    let mut bytes = [0; 512];
    assert!(rt; disk.bytes(FILE, 0, &mut bytes) == Some(512) && bytes == NAMED);
    let mut empty = Memory::new(rt.alloc(), Vec::new(rt.alloc()), Vec::new(rt.alloc()), 10)?;
    assert!(rt; make(&mut empty, host, 512, None, 9) == End::Refused(1, 122));
    Ok(())
}

const NAMED: [u8; 512] = [9; 512];

// The calls of a making are those with the numbers 3 to 8.
#[test]
fn a_fault_in_each_call(rt: HostRuntime) -> Result<(), Fail> {
    let host = HostId::new(1).ok_or("no host")?;
    for number in 1..7u8 {
        let mut disk = folder(rt.alloc(), host, u64::from(number) + 2, Pick::Old)?;
        let end = make(&mut disk, host, GIB, Some(Format::Raw), 9);
        assert!(rt; end == End::Refused(number, 120), "fault {number}");
    }
    Ok(())
}

// The host goes down before each step, and behind the last one. Whatever is left of a file that wasn't done, it can be
// removed, and made anew.
#[test]
fn a_crash_before_each_call(rt: HostRuntime) -> Result<(), Fail> {
    let host = HostId::new(1).ok_or("no host")?;
    let file = over_raw(rt.alloc())?;
    for pick in [Pick::Old, Pick::New, Pick::Byte(0x55)] {
        for number in 2..8u8 {
            let mut disk = folder(rt.alloc(), host, u64::MAX, pick)?;
            let end = make(&mut disk, host, GIB, Some(Format::Raw), number);
            disk.down(host);
            assert!(rt; disk.length(host, FILE) == Ok(LENGTH), "stop {number}");
            if number == 7 {
                assert!(rt; end == End::Done(6) && stands(&disk, &file), "{pick:?}");
            }
            disk.remove(host, FILE)?;
            let again = make(&mut disk, host, GIB, Some(Format::Raw), 9);
            assert!(rt; again == End::Done(6), "again {number}, {pick:?}");
        }
    }
    Ok(())
}
