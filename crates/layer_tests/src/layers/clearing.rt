// Layers whose autoclear features are cleared: their bytes, and a disk that fails and a host that goes down at each call. The
// bytes were written by hand from the qcow2 specification.
use super::rebasing::{disk_of, extended, stands};
use super::{GIB, lay, lay_number, open_layer, over_raw, small};
use layer_heading::Clearing;
use memory_disk::{Memory, Pick};
use qcow_layer::Layer;
use sd_names::{HostId, Refusal, Turn};
use shared_disk::SharedDisk;
use std::alloc::{AllocError, Global};
use std::test::Fail;

// How a clearing ended: after so many steps, or by a refusal with this number in the step with this number from 1.
#[derive(Clone, Copy, Debug, PartialEq, Eq)]
enum End {
    Done(u8),
    Refused(u8, u16),
    // The host stopped before this step.
    Stopped,
}

// Clears the layer's features; the host stops before the step with this number from 1.
fn clear(disk: &mut Memory, host: HostId, layer: &mut Layer, stop: u8) -> End {
    let mut work = Clearing::begin();
    for step in 1..stop {
        match work.step(host, layer, disk) {
            Turn::More(next) => work = next,
            Turn::Done(()) => return End::Done(step),
            Turn::Ended((), refusal) => return End::Refused(step, refusal.number()),
        }
    }
    End::Stopped
}

// The layer that this store makes, with these autoclear features.
fn featured(alloc: Global, features: u64) -> Result<Vec<u8>, AllocError> {
    let mut file = over_raw(alloc)?;
    lay_number(&mut file, 88, 8, features);
    Ok(file)
}

// A layer whose backing name begins in the header: its path covers the autoclear features, and its last part stands in an
// extension behind them.
fn named_there(alloc: Global, features: u64) -> Result<Vec<u8>, AllocError> {
    let mut file = featured(alloc, features)?;
    lay_number(&mut file, 8, 8, 84);
    lay_number(&mut file, 16, 4, 93);
    lay_number(&mut file, 120, 8, 0x7777_7777_0000_0040);
    lay(&mut file, 140, b"/00000000-0000-4000-8000-000000000101");
    Ok(file)
}

// A layer with a long header and extensions, without the features.
fn extended_cleared(alloc: Global) -> Result<Vec<u8>, AllocError> {
    let mut file = extended(alloc)?;
    lay_number(&mut file, 88, 8, 0);
    Ok(file)
}

#[test]
fn cleared_heads_byte_by_byte(rt: HostRuntime) -> Result<(), Fail> {
    let host = HostId::new(1).ok_or("no host")?;
    let alloc = rt.alloc();
    let all = u64::MAX;
    let rows = [
        (GIB, featured(alloc, 1)?, over_raw(alloc)?, 3),
        (GIB, featured(alloc, all)?, over_raw(alloc)?, 3),
        (GIB, named_there(alloc, 0x2f)?, named_there(alloc, 0)?, 3),
        (GIB, extended(alloc)?, extended_cleared(alloc)?, 3),
        (GIB, over_raw(alloc)?, over_raw(alloc)?, 1),
        (4_194_304, small(alloc)?, small(alloc)?, 1),
    ];
    for (number, (capacity, before, after, steps)) in rows.into_iter().enumerate() {
        let mut disk = disk_of(alloc, u64::MAX, Pick::Old, &before)?;
        let mut layer = open_layer(alloc, &mut disk, host, capacity)?;
        let parent = layer.parent();
        let end = clear(&mut disk, host, &mut layer, 9);
        assert!(rt; end == End::Done(steps), "row {number}");
        assert!(rt; layer.header().autoclear_features == 0, "row {number}");
        assert!(rt;
            clear(&mut disk, host, &mut layer, 9) == End::Done(1),
            "row {number}"
        );
        disk.down(host);
        assert!(rt; stands(&disk, &after), "row {number}");
        let opened = open_layer(alloc, &mut disk, host, capacity)?;
        assert!(rt; *opened.header() == *layer.header(), "row {number}");
        assert!(rt; opened.parent() == parent, "row {number}");
    }
    Ok(())
}

// The features in the file after the host stopped before this step, or after the last one.
fn features_after(alloc: Global, host: HostId, pick: Pick, stop: u8) -> Result<u64, Refusal> {
    let Ok(file) = featured(alloc, 5) else {
        return Err(Refusal::OutOfMemory);
    };
    let Ok(mut disk) = disk_of(alloc, u64::MAX, pick, &file) else {
        return Err(Refusal::OutOfMemory);
    };
    let mut layer = open_layer(alloc, &mut disk, host, GIB)?;
    let _ = clear(&mut disk, host, &mut layer, stop);
    disk.down(host);
    Ok(
        open_layer(alloc, &mut disk, host, GIB)?
            .header()
            .autoclear_features,
    )
}

// Before the write the features are there, and behind its sync they are gone. Between the two there is either.
#[test]
fn a_crash_before_each_call(rt: HostRuntime) -> Result<(), Fail> {
    let host = HostId::new(1).ok_or("no host")?;
    for (pick, between) in [(Pick::Old, 5), (Pick::New, 0)] {
        for (stop, features) in [(1, 5), (2, 5), (3, between), (4, 0)] {
            let found = features_after(rt.alloc(), host, pick, stop)?;
            assert!(rt; found == features, "{pick:?}, {stop}");
        }
    }
    Ok(())
}

// A layer of version 3 with clusters of 4,096 bytes and these features, but for them the small one.
fn small_featured(alloc: Global, features: u64) -> Result<Vec<u8>, AllocError> {
    let mut file = small(alloc)?;
    lay_number(&mut file, 4, 4, 3);
    lay_number(&mut file, 88, 8, features);
    lay_number(&mut file, 96, 4, 4);
    lay_number(&mut file, 100, 4, 104);
    Ok(file)
}

// Each call fails once. The layer keeps its features, as the file isn't known to have lost them. The opening takes 37 calls.
#[test]
fn a_fault_in_each_call(rt: HostRuntime) -> Result<(), Fail> {
    let host = HostId::new(1).ok_or("no host")?;
    let file = small_featured(rt.alloc(), 5)?;
    for number in 1..4u8 {
        let mut disk = disk_of(rt.alloc(), u64::from(number) + 36, Pick::Old, &file)?;
        let mut layer = open_layer(rt.alloc(), &mut disk, host, 4_194_304)?;
        let end = clear(&mut disk, host, &mut layer, 9);
        assert!(rt; end == End::Refused(number, 120), "fault {number}");
        assert!(rt; layer.header().autoclear_features == 5, "fault {number}");
    }
    Ok(())
}
