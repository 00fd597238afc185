// Clusters that are taken: which ones, what the file has then, want of room, and a disk that fails or a host that goes down at
// each call.
use super::{FILE, GIB, Outcome, VOLUME, lay_number, look, open_layer, over_raw, small, told};
use layer_placing::{Clusters, Placing};
use memory_disk::{Memory, Pick};
use qcow_format::Entry;
use qcow_layer::{Layer, Looked};
use sd_names::{HostId, NoMemory, Refusal, Turn};
use shared_disk::SharedDisk;
use std::alloc::{AllocError, Global};
use std::test::Fail;

// A disk with the file of a layer and room for writes, which fails in this call, from 0, and leaves unsynced sectors so.
fn disk_of(alloc: Global, pick: Pick, failing: u64, file: &[u8]) -> Result<Memory, NoMemory> {
    let mut calls = Vec::new(alloc);
    let mut picks = Vec::new(alloc);
    if calls.push(failing).is_err() || picks.push(pick).is_err() {
        return Err(NoMemory);
    }
    let mut disk = Memory::new(alloc, picks, calls, 5_000)?;
    if file.len() % 512 == 0 {
        disk.put(FILE, file)?;
    }
    Ok(disk)
}

fn place(
    disk: &mut Memory,
    host: HostId,
    layer: &mut Layer,
    count: u8,
) -> Result<Clusters, Refusal> {
    if count < 1 || count > 40 {
        return Err(Refusal::NotBuilt);
    }
    let mut work = Placing::begin(count);
    for _ in 0..2_000 {
        match work.step(host, layer, disk) {
            Turn::More(next) => work = next,
            Turn::Done(clusters) => return Ok(clusters),
            Turn::Ended((), refusal) => return Err(refusal),
        }
    }
    Err(Refusal::NotBuilt)
}

// What a placing came to: the first of the clusters and how many there are, one behind the other, or the room and the length
// that would do, or another refusal by its number.
#[derive(Clone, Copy, Debug, PartialEq, Eq)]
enum Came {
    Placed(u64, usize),
    Scattered,
    Short(u64, u64),
    Refused(u16),
}

fn told_of(answer: &Result<Clusters, Refusal>) -> Came {
    match answer {
        Ok(clusters) => {
            if clusters.count() == 0 {
                return Came::Scattered;
            }
            let first = clusters.get(0);
            for i in 0..clusters.count() {
                if clusters.get(i) != first.wrapping_add(i as u64) {
                    return Came::Scattered;
                }
            }
            Came::Placed(first, clusters.count())
        }
        Err(Refusal::NoRoom(volume, room, wanted)) if *volume == VOLUME => {
            Came::Short(*room, *wanted)
        }
        Err(refusal) => Came::Refused(refusal.number()),
    }
}

// The small layer in a file of 2,052 clusters, whose first 2,048 have counts; the last four are in a range without a block.
fn wide(alloc: Global) -> Result<Vec<u8>, AllocError> {
    let head = small(alloc)?;
    let mut file = vec![in alloc; 0; 8_404_992]?;
    super::lay(&mut file, 0, &head);
    for cluster in 8..2_048 {
        lay_number(&mut file, 8_192 + 2 * cluster, 2, 1);
    }
    Ok(file)
}

#[test]
fn the_least_free_clusters(rt: HostRuntime) -> Result<(), Fail> {
    let host = HostId::new(1).ok_or("no host")?;
    let file = over_raw(rt.alloc())?;
    for (count, want) in [
        (1, Came::Placed(4, 1)),
        (16, Came::Placed(4, 16)),
        (17, Came::Short(1_310_720, 1_376_256)),
        (40, Came::Short(1_310_720, 2_883_584)),
    ] {
        let mut disk = disk_of(rt.alloc(), Pick::New, u64::MAX, &file)?;
        match open_layer(rt.alloc(), &mut disk, host, GIB) {
            Ok(layer) => {
                let mut layer = layer;
                assert!(rt;
                    told_of(&place(&mut disk, host, &mut layer, count)) == want,
                    "{count}"
                );
                let counted = if count > 16 { 0 } else { u64::from(count) };
                assert!(rt; layer.is_free(4 + counted), "{count}");
                assert!(rt; !layer.is_free(3 + counted), "{count}");
                // They aren't given again.
                let next = told_of(&place(&mut disk, host, &mut layer, 1));
                let last = if count == 16 {
                    Came::Short(1_310_720, 1_376_256)
                } else {
                    Came::Placed(4 + counted, 1)
                };
                assert!(rt; next == last, "{count}");
            }
            Err(_) => assert!(rt; false),
        }
    }
    Ok(())
}

// A layer of 4 MiB with clusters of 2,097,152 bytes: the header, the refcount table, its block and the L1 table, in a file of
// six clusters.
fn large(alloc: Global) -> Result<Vec<u8>, AllocError> {
    let mut file = vec![in alloc; 0; 12_582_912]?;
    super::lay(&mut file, 0, b"QFI\xfb\0\0\0\x02");
    lay_number(&mut file, 20, 4, 21);
    lay_number(&mut file, 24, 8, 4_194_304);
    lay_number(&mut file, 36, 4, 1);
    lay_number(&mut file, 40, 8, 6_291_456);
    lay_number(&mut file, 48, 8, 2_097_152);
    lay_number(&mut file, 56, 4, 1);
    lay_number(&mut file, 2_097_152, 8, 4_194_304);
    super::lay(&mut file, 4_194_304, &[0, 1, 0, 1, 0, 1, 0, 1]);
    Ok(file)
}

#[test]
fn large_clusters(rt: HostRuntime) -> Result<(), Fail> {
    let host = HostId::new(1).ok_or("no host")?;
    let file = large(rt.alloc())?;
    for (count, want) in [
        (2, Came::Placed(4, 2)),
        (3, Came::Short(12_582_912, 14_680_064)),
    ] {
        let mut disk = disk_of(rt.alloc(), Pick::New, u64::MAX, &file)?;
        match open_layer(rt.alloc(), &mut disk, host, 4_194_304) {
            Ok(layer) => {
                let mut layer = layer;
                let got = told_of(&place(&mut disk, host, &mut layer, count));
                assert!(rt; got == want, "{count}");
            }
            Err(_) => assert!(rt; false),
        }
    }
    Ok(())
}

#[test]
fn a_range_gets_its_block(rt: HostRuntime) -> Result<(), Fail> {
    let host = HostId::new(1).ok_or("no host")?;
    let mut disk = disk_of(rt.alloc(), Pick::New, u64::MAX, &wide(rt.alloc())?)?;
    match open_layer(rt.alloc(), &mut disk, host, 4_194_304) {
        Ok(layer) => {
            let mut layer = layer;
            let short = Came::Short(8_404_992, 8_409_088);
            assert!(rt; told_of(&place(&mut disk, host, &mut layer, 4)) == short);
            let placed = told_of(&place(&mut disk, host, &mut layer, 2));
            assert!(rt; placed == Came::Placed(2_049, 2));
            assert!(rt; disk.sync(host, FILE).is_ok());
            let mut entry = [0; 16];
            assert!(rt; disk.bytes(FILE, 4_096, &mut entry) == Some(16));
            assert!(rt; entry == [0, 0, 0, 0, 0, 0, 0x20, 0, 0, 0, 0, 0, 0, 0x80, 0, 0]);
            let mut counts = [9; 10];
            assert!(rt; disk.bytes(FILE, 8_388_608, &mut counts) == Some(10));
            assert!(rt; counts == [0, 1, 0, 1, 0, 1, 0, 0, 0, 0]);
        }
        Err(_) => assert!(rt; false),
    }
    Ok(())
}

// A placing of two clusters in a range that gets its block has eight calls: the length, the entry, the block, a sync, the
// entry, a sync, the sector of counts, and its write.
#[test]
fn a_fault_in_each_call(rt: HostRuntime) -> Result<(), Fail> {
    let host = HostId::new(1).ok_or("no host")?;
    let other = HostId::new(2).ok_or("no host")?;
    let file = wide(rt.alloc())?;
    for pick in [Pick::Old, Pick::New, Pick::Byte(7)] {
        for call in 0..9 {
            let failing = if call < 8 { CALLS + call } else { u64::MAX };
            let mut disk = disk_of(rt.alloc(), pick, failing, &file)?;
            match open_layer(rt.alloc(), &mut disk, host, 4_194_304) {
                Ok(layer) => {
                    let mut layer = layer;
                    let want = if call < 8 {
                        Came::Refused(120)
                    } else {
                        Came::Placed(2_049, 2)
                    };
                    let got = told_of(&place(&mut disk, host, &mut layer, 2));
                    assert!(rt; got == want, "call {call}");
                }
                Err(_) => assert!(rt; false, "call {call}"),
            }
            disk.down(host);
            match open_layer(rt.alloc(), &mut disk, other, 4_194_304) {
                Ok(layer) => {
                    let mut layer = layer;
                    let first = Looked {
                        entry: Entry::Data(28_672),
                        table: true,
                    };
                    assert!(rt;
                        look(&mut disk, other, &mut layer, 0) == Some(first),
                        "call {call}"
                    );
                }
                Err(refusal) => {
                    assert!(rt; told(Err(refusal)) == Outcome::Opened, "call {call}");
                }
            }
        }
    }
    Ok(())
}

// The calls of the opening: those of the small layer, with all 8 sectors of its block, where 7 do for the shorter file.
const CALLS: u64 = 38;
