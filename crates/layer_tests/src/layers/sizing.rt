// Layers that get a larger capacity: their bytes, the bound, and a disk that fails and a host that goes down at each call. The
// bytes were written by hand from the qcow2 specification.
use super::rebasing::{disk_of, stands};
use super::{GIB, alone, lay, lay_number, open_layer, over_raw, small};
use layer_sizing::Sizing;
use memory_disk::{Memory, Pick};
use qcow_layer::Layer;
use sd_names::{HostId, Refusal, Turn};
use shared_disk::SharedDisk;
use std::alloc::{AllocError, Global};
use std::test::Fail;

// How a sizing ended: after so many steps, or by a refusal with this number in the step with this number from 1.
#[derive(Clone, Copy, Debug, PartialEq, Eq)]
enum End {
    Done(u8),
    Refused(u8, u16),
    // The host stopped before this step.
    Stopped,
}

// Gives the layer a capacity; the host stops before the step with this number from 1.
fn size(disk: &mut Memory, host: HostId, layer: &mut Layer, capacity: u64, stop: u8) -> End {
    let mut work = Sizing::begin(capacity);
    for step in 1..stop {
        match work.step(host, layer, disk) {
            Turn::More(next) => work = next,
            Turn::Done(()) => return End::Done(step),
            Turn::Ended((), refusal) => return End::Refused(step, refusal.number()),
        }
    }
    End::Stopped
}

// The bytes from one place to another are this one.
fn fill(file: &mut Vec<u8>, from: usize, to: usize, byte: u8) {
    for k in from..to {
        if k < file.len() {
            file[k] = byte;
        }
    }
}

// The layer of 1 GiB, in which the rest of the L1 table isn't zeros.
fn stale_table(alloc: Global) -> Result<Vec<u8>, AllocError> {
    let mut file = over_raw(alloc)?;
    fill(&mut file, 196_624, 262_144, 0x77);
    Ok(file)
}

// The same with 3 GiB: six L1 entries, the last four of them in the sector of the first two.
fn three_gib(alloc: Global) -> Result<Vec<u8>, AllocError> {
    let mut file = stale_table(alloc)?;
    lay_number(&mut file, 24, 8, 3_221_225_472);
    lay_number(&mut file, 36, 4, 6);
    fill(&mut file, 196_624, 197_120, 0);
    Ok(file)
}

// The layer of version 2, in which the rest of the L1 table isn't zeros.
fn stale_small(alloc: Global) -> Result<Vec<u8>, AllocError> {
    let mut file = small(alloc)?;
    fill(&mut file, 12_304, 16_384, 0x77);
    Ok(file)
}

// The same with 1 GiB: all 512 entries of the table's cluster.
fn whole_small(alloc: Global) -> Result<Vec<u8>, AllocError> {
    let mut file = small(alloc)?;
    lay_number(&mut file, 24, 8, GIB);
    lay_number(&mut file, 36, 4, 512);
    Ok(file)
}

// A layer with a cluster of data, at 327,680, that holds 0x5a up to its end.
fn stale_data(alloc: Global) -> Result<Vec<u8>, AllocError> {
    let mut file = alone(alloc)?;
    fill(&mut file, 327_680, 393_216, 0x5a);
    Ok(file)
}

// The same with a size of 1 GiB, and zeros past the first 33,000 bytes.
fn rest_cleared(alloc: Global) -> Result<Vec<u8>, AllocError> {
    let mut file = stale_data(alloc)?;
    lay_number(&mut file, 24, 8, GIB);
    lay_number(&mut file, 36, 4, 2);
    fill(&mut file, 360_680, 393_216, 0);
    Ok(file)
}

#[test]
fn sized_layers_byte_by_byte(rt: HostRuntime) -> Result<(), Fail> {
    let host = HostId::new(1).ok_or("no host")?;
    let alloc = rt.alloc();
    let rows = [
        (GIB, 3 * GIB, stale_table(alloc)?, three_gib(alloc)?, 7),
        (4_194_304, GIB, stale_small(alloc)?, whole_small(alloc)?, 8),
        (33_000, GIB, stale_data(alloc)?, rest_cleared(alloc)?, 13),
        (
            536_870_912,
            GIB,
            stale_table(alloc)?,
            stale_table(alloc)?,
            4,
        ),
        (GIB, GIB, stale_table(alloc)?, stale_table(alloc)?, 1),
        (GIB, 4_096, stale_table(alloc)?, stale_table(alloc)?, 1),
    ];
    for (number, (capacity, larger, before, after, steps)) in rows.into_iter().enumerate() {
        let mut disk = disk_of(alloc, u64::MAX, Pick::Old, &before)?;
        let mut layer = open_layer(alloc, &mut disk, host, capacity)?;
        let end = size(&mut disk, host, &mut layer, larger, 30);
        assert!(rt; end == End::Done(steps), "row {number}: {end:?}");
        assert!(rt; layer.capacity() == larger.max(capacity), "row {number}");
        disk.down(host);
        assert!(rt; stands(&disk, &after), "row {number}");
        let opened = open_layer(alloc, &mut disk, host, larger.max(capacity))?;
        assert!(rt; *opened.header() == *layer.header(), "row {number}");
        assert!(rt; opened.parent() == layer.parent(), "row {number}");
    }
    Ok(())
}

// The bound is 1 GiB where the one cluster of the L1 table has 512 entries for 2 MiB each, and 1 TiB where it would map 4 TiB.
#[test]
fn the_bound_is_kept(rt: HostRuntime) -> Result<(), Fail> {
    let host = HostId::new(1).ok_or("no host")?;
    let alloc = rt.alloc();
    let tib = 1_099_511_627_776;
    let rows = [
        (4_194_304, GIB + 1, GIB, stale_small(alloc)?),
        (4_194_304, u64::MAX, GIB, stale_small(alloc)?),
        (GIB, tib + 1, tib, stale_table(alloc)?),
    ];
    for (number, (capacity, larger, most, file)) in rows.into_iter().enumerate() {
        let mut disk = disk_of(alloc, u64::MAX, Pick::New, &file)?;
        let mut layer = open_layer(alloc, &mut disk, host, capacity)?;
        let refused = match Sizing::begin(larger).step(host, &mut layer, &mut disk) {
            Turn::Ended((), Refusal::BadCapacity(asked, bound)) => asked == larger && bound == most,
            _ => false,
        };
        assert!(rt; refused, "row {number}");
        let end = size(&mut disk, host, &mut layer, most, 2);
        assert!(rt; end == End::Stopped, "row {number}");
        assert!(rt; layer.capacity() == capacity, "row {number}");
        disk.down(host);
        assert!(rt; stands(&disk, &file), "row {number}");
    }
    Ok(())
}

// The size in the file after the host stopped before this step, or after the last one. The file opens with the old capacity,
// and with the larger one where it has the size; then all zeros are there.
fn size_after(alloc: Global, host: HostId, pick: Pick, stop: u8) -> Result<Option<u64>, Refusal> {
    let (Ok(file), Ok(after)) = (stale_data(alloc), rest_cleared(alloc)) else {
        return Err(Refusal::OutOfMemory);
    };
    let Ok(mut disk) = disk_of(alloc, u64::MAX, pick, &file) else {
        return Err(Refusal::OutOfMemory);
    };
    let mut layer = open_layer(alloc, &mut disk, host, 33_000)?;
    let _ = size(&mut disk, host, &mut layer, GIB, stop);
    disk.down(host);
    let found = open_layer(alloc, &mut disk, host, 33_000)?.header().size;
    if found == 131_072 {
        return Ok(Some(found));
    }
    let _ = open_layer(alloc, &mut disk, host, GIB)?;
    if stands(&disk, &after) {
        return Ok(Some(found));
    }
    Ok(None)
}

// The header is written in step 12 and synced in step 13: the bound, two looks, three steps for the rest of the cluster and its
// sync, two for the edge of the table and its sync, and three for the header.
#[test]
fn a_crash_before_each_call(rt: HostRuntime) -> Result<(), Fail> {
    let host = HostId::new(1).ok_or("no host")?;
    for (pick, between) in [(Pick::Old, 131_072), (Pick::New, GIB)] {
        for stop in 1..13 {
            let found = size_after(rt.alloc(), host, pick, stop)?;
            assert!(rt; found == Some(131_072), "{pick:?}, {stop}");
        }
        let written = size_after(rt.alloc(), host, pick, 13)?;
        assert!(rt; written == Some(between), "{pick:?}");
        let synced = size_after(rt.alloc(), host, pick, 14)?;
        assert!(rt; synced == Some(GIB), "{pick:?}");
    }
    Ok(())
}

// Each call fails once: those of steps 2 to 8. The layer keeps its size. The opening takes 37 calls.
#[test]
fn a_fault_in_each_call(rt: HostRuntime) -> Result<(), Fail> {
    let host = HostId::new(1).ok_or("no host")?;
    let file = stale_small(rt.alloc())?;
    for (number, step) in [2u8, 3, 4, 5, 6, 7, 8].into_iter().enumerate() {
        let mut disk = disk_of(rt.alloc(), number as u64 + 37, Pick::Old, &file)?;
        let mut layer = open_layer(rt.alloc(), &mut disk, host, 4_194_304)?;
        let end = size(&mut disk, host, &mut layer, GIB, 30);
        assert!(rt; end == End::Refused(step, 120), "fault {number}: {end:?}");
        assert!(rt; layer.capacity() == 4_194_304, "fault {number}");
        assert!(rt; layer.header().size == 4_194_304, "fault {number}");
    }
    Ok(())
}
