// Layers that get another backing file: their bytes, and a disk that fails and a host that goes down at each call. The
// bytes were written by hand from the qcow2 specification.
use super::{FILE, GIB, lay, lay_number, open_layer, over_raw, small};
use layer_creating::Backing;
use layer_heading::Rebasing;
use memory_disk::{Memory, Pick};
use qcow_layer::Layer;
use sd_names::{Format, HostId, Id, NoMemory, Refusal, Turn};
use shared_disk::SharedDisk;
use std::alloc::{AllocError, Global};
use std::test::Fail;

// The volumes that layers lie over before and after, with their names.
const OLD: Id = Id([0, 0, 0, 0, 0, 0, 0x40, 0, 0x80, 0, 0, 0, 0, 0, 1, 1]);

const NEW: Id = Id([0, 0, 0, 0, 0, 0, 0x40, 0, 0x80, 0, 0, 0, 0, 0, 1, 9]);

const OLD_NAME: [u8; 36] = *b"00000000-0000-4000-8000-000000000101";

const NEW_NAME: [u8; 36] = *b"00000000-0000-4000-8000-000000000109";

// The backing format extensions of the standard.
const RAW: [u8; 16] = *b"\xe2\x79\x2a\xca\0\0\0\x03raw\0\0\0\0\0";

const QCOW2: [u8; 16] = *b"\xe2\x79\x2a\xca\0\0\0\x05qcow2\0\0\0";

// How a rebasing ended: after so many steps, or by a refusal with this number in the step with this number from 1.
#[derive(Clone, Copy, Debug, PartialEq, Eq)]
enum End {
    Done(u8),
    Refused(u8, u16),
    // The host stopped before this step.
    Stopped,
}

// Gives the layer the new backing file; the host stops before the step with this number from 1.
fn rebase(disk: &mut Memory, host: HostId, layer: &mut Layer, format: Format, stop: u8) -> End {
    let mut work = Rebasing::begin(Backing {
        parent: NEW,
        format,
    });
    for step in 1..stop {
        match work.step(host, layer, disk) {
            Turn::More(next) => work = next,
            Turn::Done(()) => return End::Done(step),
            Turn::Ended((), refusal) => return End::Refused(step, refusal.number()),
        }
    }
    End::Stopped
}

// A disk with the file of a layer, which fails in this call, from 0, and settles unsynced sectors so.
pub(super) fn disk_of(
    alloc: Global,
    failing: u64,
    pick: Pick,
    file: &[u8],
) -> Result<Memory, NoMemory> {
    let mut list = Vec::new(alloc);
    let mut picks = Vec::new(alloc);
    if list.push(failing).is_err() || picks.push(pick).is_err() {
        return Err(NoMemory);
    }
    let mut disk = Memory::new(alloc, picks, list, 100)?;
    if file.len() % 512 == 0 {
        disk.put(FILE, file)?;
    }
    Ok(disk)
}

// Whether the medium has exactly the first 65,536 of these bytes, or all of them where they are fewer.
pub(super) fn stands(disk: &Memory, file: &[u8]) -> bool {
    let mut room = [0; 65_536];
    let length = if file.len() < 65_536 {
        file.len()
    } else {
        65_536
    };
    disk.bytes(FILE, 0, &mut room) == Some(length) && room[..length] == file[..length]
}

// A layer of version 2 and clusters of 4,096 bytes, with a name across a sector: the head's third last and second last one.
fn across(alloc: Global) -> Result<Vec<u8>, AllocError> {
    let mut file = small(alloc)?;
    lay_number(&mut file, 8, 8, 3_060);
    lay_number(&mut file, 16, 4, 36);
    lay(&mut file, 3_060, &OLD_NAME);
    Ok(file)
}

// So it is over the new backing file: its name goes to the last sector, and no format is named.
fn across_rebased(alloc: Global) -> Result<Vec<u8>, AllocError> {
    let mut file = across(alloc)?;
    lay_number(&mut file, 8, 8, 3_584);
    lay(&mut file, 3_584, &NEW_NAME);
    Ok(file)
}

// A layer with a long header, features that a writer clears, extensions of 3,000 bytes and of no bytes around the backing
// format, and a name behind them.
pub(super) fn extended(alloc: Global) -> Result<Vec<u8>, AllocError> {
    let mut file = over_raw(alloc)?;
    lay_number(&mut file, 8, 8, 9_000);
    lay(&mut file, 9_000, &OLD_NAME);
    lay_number(&mut file, 88, 8, 3);
    lay_number(&mut file, 100, 4, 112);
    lay_number(&mut file, 104, 8, 0x0102_0304_0506_0708);
    lay_number(&mut file, 112, 8, 0x7777_7777_0000_0000);
    lay(&mut file, 120, &RAW);
    lay_number(&mut file, 136, 8, 0x1234_5678_0000_0bb8);
    lay(&mut file, 144, &[0x5a; 3_000]);
    Ok(file)
}

// So it is over the new backing file: its name goes to the second last sector.
fn extended_rebased(alloc: Global) -> Result<Vec<u8>, AllocError> {
    let mut file = extended(alloc)?;
    lay_number(&mut file, 8, 8, 64_512);
    lay(&mut file, 64_512, &[0; 512]);
    lay(&mut file, 64_512, &NEW_NAME);
    lay_number(&mut file, 88, 8, 0);
    lay(&mut file, 120, &QCOW2);
    Ok(file)
}

// The layer that this store makes, over the new backing file: its name goes to the last sector.
fn made_rebased(alloc: Global) -> Result<Vec<u8>, AllocError> {
    let mut file = over_raw(alloc)?;
    lay_number(&mut file, 8, 8, 65_024);
    lay(&mut file, 65_024, &NEW_NAME);
    lay(&mut file, 104, &QCOW2);
    Ok(file)
}

#[test]
fn rebased_heads_byte_by_byte(rt: HostRuntime) -> Result<(), Fail> {
    let host = HostId::new(1).ok_or("no host")?;
    let alloc = rt.alloc();
    let rows = [
        (GIB, over_raw(alloc)?, made_rebased(alloc)?),
        (4_194_304, across(alloc)?, across_rebased(alloc)?),
        (GIB, extended(alloc)?, extended_rebased(alloc)?),
    ];
    for (number, (capacity, before, after)) in rows.into_iter().enumerate() {
        let mut disk = disk_of(alloc, u64::MAX, Pick::Old, &before)?;
        let mut layer = open_layer(alloc, &mut disk, host, capacity)?;
        assert!(rt; layer.parent() == Some(OLD), "row {number}");
        let end = rebase(&mut disk, host, &mut layer, Format::Cow, 9);
        assert!(rt; end == End::Done(5), "row {number}");
        assert!(rt; layer.parent() == Some(NEW), "row {number}");
        disk.down(host);
        assert!(rt; stands(&disk, &after), "row {number}");
        let opened = open_layer(alloc, &mut disk, host, capacity)?;
        assert!(rt; *opened.header() == *layer.header(), "row {number}");
        assert!(rt; opened.parent() == Some(NEW), "row {number}");
    }
    Ok(())
}

// The parent that the file's header names after the host stopped before this step, or after the last one.
fn parent_after(alloc: Global, host: HostId, pick: Pick, stop: u8) -> Result<Option<Id>, Refusal> {
    let file = match across(alloc) {
        Ok(file) => file,
        Err(_) => return Err(Refusal::OutOfMemory),
    };
    let mut disk = match disk_of(alloc, u64::MAX, pick, &file) {
        Ok(disk) => disk,
        Err(_) => return Err(Refusal::OutOfMemory),
    };
    let mut layer = open_layer(alloc, &mut disk, host, 4_194_304)?;
    let _ = rebase(&mut disk, host, &mut layer, Format::Raw, stop);
    disk.down(host);
    Ok(open_layer(alloc, &mut disk, host, 4_194_304)?.parent())
}

// Before the header is written the layer lies over the old backing file, and behind its sync over the new one. Between the
// two it lies over either.
#[test]
fn a_crash_before_each_call(rt: HostRuntime) -> Result<(), Fail> {
    let host = HostId::new(1).ok_or("no host")?;
    for (pick, between) in [(Pick::Old, OLD), (Pick::New, NEW), (Pick::Byte(0x55), OLD)] {
        let stops = [
            (1, OLD),
            (2, OLD),
            (3, OLD),
            (4, OLD),
            (5, between),
            (6, NEW),
        ];
        for (stop, parent) in stops {
            let found = parent_after(rt.alloc(), host, pick, stop)?;
            assert!(rt; found == Some(parent), "{pick:?}, {stop}");
        }
    }
    Ok(())
}

// The opening takes 37 calls.
#[test]
fn a_fault_in_each_call(rt: HostRuntime) -> Result<(), Fail> {
    let host = HostId::new(1).ok_or("no host")?;
    let file = across(rt.alloc())?;
    for number in 1..6u8 {
        let mut disk = disk_of(rt.alloc(), u64::from(number) + 36, Pick::Old, &file)?;
        let mut layer = open_layer(rt.alloc(), &mut disk, host, 4_194_304)?;
        let end = rebase(&mut disk, host, &mut layer, Format::Raw, 9);
        assert!(rt; end == End::Refused(number, 120), "fault {number}");
        assert!(rt; layer.parent() == Some(OLD), "fault {number}");
    }
    Ok(())
}
