// Layers that open, with the header and the parent that they keep.
use super::{
    FILE, GIB, NAME, Outcome, VOLUME, alone, disk_with, lay, lay_number, open_layer, over_raw, told,
};
use memory_disk::Memory;
use qcow_format::{Header, MAGIC};
use qcow_layer::Opening;
use sd_names::{Format, HostId, Id, Turn};
use std::alloc::Global;
use std::test::Fail;

// The header of the layer over a raw volume.
fn header() -> Header {
    Header {
        magic: MAGIC,
        version: 3,
        backing_file_offset: 64_512,
        backing_file_size: 36,
        cluster_bits: 16,
        size: GIB,
        crypt_method: 0,
        l1_size: 2,
        l1_table_offset: 196_608,
        refcount_table_offset: 65_536,
        refcount_table_clusters: 1,
        nb_snapshots: 0,
        snapshots_offset: 0,
        incompatible_features: 0,
        compatible_features: 0,
        autoclear_features: 0,
        refcount_order: 4,
        header_length: 104,
        name: (64_512, 36),
        format_at: Some(104),
        format: Some(Format::Raw),
    }
}

#[test]
fn the_layer_that_is_made(rt: HostRuntime) -> Result<(), Fail> {
    let host = HostId::new(1).ok_or("no host")?;
    let file = over_raw(rt.alloc())?;
    let mut disk = disk_with(rt.alloc(), u64::MAX, &file)?;
    match open_layer(rt.alloc(), &mut disk, host, GIB) {
        Ok(layer) => {
            assert!(rt; layer.volume() == VOLUME);
            assert!(rt; *layer.header() == header());
            assert!(rt; layer.parent() == Id::read(&NAME));
        }
        Err(_) => assert!(rt; false),
    }
    assert!(rt; told(open_layer(rt.alloc(), &mut disk, host, 512)) == Outcome::Opened);
    Ok(())
}

#[test]
fn a_layer_without_a_backing_file(rt: HostRuntime) -> Result<(), Fail> {
    let host = HostId::new(1).ok_or("no host")?;
    let file = alone(rt.alloc())?;
    let mut disk = disk_with(rt.alloc(), u64::MAX, &file)?;
    match open_layer(rt.alloc(), &mut disk, host, 131_072) {
        Ok(layer) => assert!(rt; layer.parent().is_none()),
        Err(_) => assert!(rt; false),
    }
    Ok(())
}

// A header of 112 bytes, the backing format at 112, a feature name table of 336 bytes at 128, the closing mark at 472 and
// the name at 480, across the end of the first sector.
#[test]
fn a_name_across_a_sector(rt: HostRuntime) -> Result<(), Fail> {
    let host = HostId::new(1).ok_or("no host")?;
    let mut file = over_raw(rt.alloc())?;
    lay(&mut file, 14, &[0x01, 0xe0]);
    lay(&mut file, 103, &[112]);
    lay(&mut file, 104, &[0; 8]);
    lay(&mut file, 112, b"\xe2\x79\x2a\xca\0\0\0\x05qcow2\0\0\0");
    lay(&mut file, 128, b"\x68\x03\xf8\x57\0\0\x01\x50\0\0dirty bit");
    lay(&mut file, 480, &NAME);
    lay(&mut file, 64_512, &[0; 36]);
    let mut disk = disk_with(rt.alloc(), u64::MAX, &file)?;
    match open_layer(rt.alloc(), &mut disk, host, GIB) {
        Ok(layer) => {
            let header = layer.header();
            assert_eq!(rt; header.name, (480, 36));
            assert_eq!(rt; header.format_at, Some(112));
            assert!(rt; header.format == Some(Format::Cow));
            assert!(rt; layer.parent() == Id::read(&NAME));
        }
        Err(_) => assert!(rt; false),
    }
    Ok(())
}

// Opens the layer, and says in how many steps.
fn steps_to_open(alloc: Global, disk: &mut Memory, host: HostId, capacity: u64) -> Option<u32> {
    let Ok(mut work) = Opening::begin(alloc, VOLUME, FILE, capacity, capacity) else {
        return None;
    };
    for steps in 1..10_000 {
        match work.step(host, disk) {
            Turn::More(next) => work = next,
            Turn::Done(_) => return Some(steps),
            Turn::Ended((), _) => return None,
        }
    }
    None
}

// A fresh layer has four clusters, of 128 sectors each: the header, the refcount table, its block and the L1 table. A step
// each goes to the length and to the header, 128 to the refcount table, two to the block's own count. The L1 table of 1 GiB
// has 2 entries, in one sector, and that of 1 TiB 2,048, in 32. The map of 1 GiB has 18,464 clusters, whose counts are in one
// row of the table and 73 sectors of the block; that of 1 TiB has 18,874,400, in 577 blocks: 10 rows, and the one block that
// is there.
#[test]
fn steps_of_fresh_layers(rt: HostRuntime) -> Result<(), Fail> {
    let host = HostId::new(1).ok_or("no host")?;
    let mut file = over_raw(rt.alloc())?;
    let mut disk = disk_with(rt.alloc(), u64::MAX, &file)?;
    let small = steps_to_open(rt.alloc(), &mut disk, host, GIB).ok_or("not opened")?;
    lay_number(&mut file, 24, 8, 1024 * GIB);
    lay_number(&mut file, 36, 4, 2_048);
    let mut disk = disk_with(rt.alloc(), u64::MAX, &file)?;
    let large = steps_to_open(rt.alloc(), &mut disk, host, 1024 * GIB).ok_or("not opened")?;
    assert_eq!(rt; small, 2 + 128 + 2 + 1 + (1 + 73));
    assert_eq!(rt; large, 2 + 128 + 2 + 32 + (10 + 128));
    assert!(rt; large <= 2 * 4 * 128 + 8);
    Ok(())
}
