// Many sectors, and small files that are replaced beside them.
use super::{Call, NEW, NONE, Row, TEXT, first_wrong, made, place};
use crate::Memory;
use sd_names::HostId;
use shared_disk::{DiskAnswer, SharedDisk};
use std::test::Fail;

const BEGUN: [Row; 2] = [(1, Call::MakeDomain, Ok(0)), (1, Call::MakeTexts, Ok(0))];

const REMOVED: [Row; 1] = [(1, Call::Remove(NONE), Ok(0))];

// Piece i of 65,536 bytes is all i mod 251. Sixteen pieces are synced together.
fn write_pieces(disk: &mut Memory, host: HostId, pieces: u16) -> Result<(), DiskAnswer> {
    for i in 0..pieces {
        let piece = [(i % 251) as u8; 65_536];
        disk.write_at(host, place(NONE), 65_536 * i as u64, &piece)?;
        if i % 16 == 15 {
            disk.sync(host, place(NONE))?;
        }
    }
    Ok(())
}

// How many pieces are read as they were written.
fn right_pieces(disk: &mut Memory, host: HostId, pieces: u16) -> Result<u16, DiskAnswer> {
    let mut right: u16 = 0;
    for i in 0..pieces {
        let mut into = [255; 65_536];
        disk.read_at(host, place(NONE), 65_536 * i as u64, &mut into)?;
        if into.iter().all(|byte| *byte as u16 == i % 251) {
            right = right.saturating_add(1);
        }
    }
    Ok(right)
}

// Makes a file of one sector and puts it in the place of the one before it, so many times.
fn replace_often(disk: &mut Memory, host: HostId, times: u16) -> Result<(), DiskAnswer> {
    for i in 0..times {
        made(disk, host, Call::Create(TEXT, 1))?;
        made(disk, host, Call::Write(TEXT, 0, (i % 251) as u8))?;
        made(disk, host, Call::Sync(TEXT))?;
        made(disk, host, Call::Rename)?;
    }
    Ok(())
}

// Makes a file with each of its sectors in turn, removes it, and gives how many of them were read as they were written.
fn right_in_turn(disk: &mut Memory, host: HostId, sectors: u8) -> Result<u8, DiskAnswer> {
    let mut right: u8 = 0;
    for k in 0..sectors {
        made(disk, host, Call::Create(TEXT, sectors))?;
        made(disk, host, Call::Write(TEXT, k, 7))?;
        made(disk, host, Call::Sync(TEXT))?;
        let here = made(disk, host, Call::Byte(TEXT, k))?;
        let first = made(disk, host, Call::Byte(TEXT, 0))?;
        if here == 7 && (first == 0 || k == 0) {
            right = right.saturating_add(1);
        }
        made(disk, host, Call::Remove(TEXT))?;
    }
    Ok(right)
}

// Four units serve for any number of sectors one after the other.
#[test]
fn units_serve_again(rt: HostRuntime) -> Result<(), Fail> {
    let alloc = rt.alloc();
    let mut disk = Memory::new(alloc, Vec::new(alloc), Vec::new(alloc), 4)?;
    let host = HostId::new(1).ok_or("a host")?;
    assert_eq!(rt; first_wrong(&mut disk, &BEGUN), None);
    assert_eq!(rt; right_in_turn(&mut disk, host, 200), Ok(200));
    assert_eq!(rt; disk.fault_count(), 0);
    Ok(())
}

const LAST: [Row; 1] = [(1, Call::Byte(NEW, 0), Ok(50))];

#[test]
fn two_hundred_thousand_sectors(rt: HostRuntime) -> Result<(), Fail> {
    let alloc = rt.alloc();
    let mut disk = Memory::new(alloc, Vec::new(alloc), Vec::new(alloc), 210_000)?;
    let host = HostId::new(1).ok_or("a host")?;
    assert_eq!(rt; first_wrong(&mut disk, &BEGUN), None);
    assert_eq!(rt; disk.create(host, place(NONE), 1600 * 65_536), Ok(()));
    assert_eq!(rt; write_pieces(&mut disk, host, 1600), Ok(()));
    assert_eq!(rt; right_pieces(&mut disk, host, 1600), Ok(1600));
    // A file that is removed leaves its room to the next.
    assert_eq!(rt; first_wrong(&mut disk, &REMOVED), None);
    assert_eq!(rt; disk.create(host, place(NONE), 1600 * 65_536), Ok(()));
    assert_eq!(rt; write_pieces(&mut disk, host, 1600), Ok(()));
    // A replace takes no longer beside that file; were all its sectors copied each time, the test's time would not do.
    assert_eq!(rt; replace_often(&mut disk, host, 50_000), Ok(()));
    assert_eq!(rt; first_wrong(&mut disk, &LAST), None);
    assert_eq!(rt; right_pieces(&mut disk, host, 1600), Ok(1600));
    Ok(())
}
