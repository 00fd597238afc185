// Making a pool: each file's bytes, a cut at each call, and what is refused.
ghost use Rattle.std.specs.Prelude.{◌<◌};

use crate::shared::{End, LEASES, METADATA, SD, TEXT, make};
use memory_disk::{Memory, Pick};
use sd_names::{Dir, HostId, Id, Name, NoMemory, Place};
use shared_disk::{DiskAnswer, SharedDisk};
use std::alloc::Global;
use std::test::Fail;

const INBOX: Place = Place {
    dir: Dir::DomMd(SD),
    name: Name::Inbox,
};

const OUTBOX: Place = Place {
    dir: Dir::DomMd(SD),
    name: Name::Outbox,
};

const NEW: Place = Place {
    dir: Dir::DomMd(SD),
    name: Name::MetadataNew,
};

// A domain whose folder comes before that of `SD`, and one whose folder comes behind.
const LESSER: Id = Id([0, 0, 0, 0, 0, 0, 0x40, 0, 0x80, 0, 0, 0, 0, 0, 0, 1]);

const GREATER: Id = Id([1; 16]);

// Whether a file has so many blocks of 4,096 zero bytes, of which each so many are looked at, and nothing behind.
fn is_zeros(disk: &Memory, place: Place, blocks: u16, each: u16) -> bool {
    let mut block = [7; 4096];
    for k in 0..blocks {
        block[0] = 7;
        if each != 0 && k % each != 0 {
            continue;
        }
        if disk.bytes(place, 4096 * u64::from(k), &mut block) != Some(4096) || block != [0; 4096] {
            return false;
        }
    }
    disk.bytes(place, 4096 * u64::from(blocks), &mut block) == Some(0)
}

// Whether the bytes are this text, and zeros behind it.
fn is_padded(bytes: &[u8], text: &[u8]) -> bool {
    bytes.len() >= text.len()
        && bytes[..text.len()] == text[..]
        && bytes[text.len()..].iter().all(|byte| *byte == 0)
}

// Whether the text stands in its file of one sector, and no file beside it.
fn has_text(disk: &Memory) -> bool {
    let (mut sector, mut rest) = ([7; 512], [7; 512]);
    let first = disk.bytes(METADATA, 0, &mut sector);
    let behind = disk.bytes(METADATA, 512, &mut rest);
    first == Some(512)
        && behind == Some(0)
        && is_padded(&sector, TEXT)
        && disk.bytes(NEW, 0, &mut rest).is_none()
}

// Whether the pool stands there whole: 524,288 bytes of leases and 1,028,096 of each box, of which each so many
// blocks are looked at.
fn is_whole(disk: &mut Memory, host: HostId, each: u16) -> bool {
    let folders = [
        Dir::Domain(SD),
        Dir::DomMd(SD),
        Dir::Images(SD),
        Dir::Master(SD),
        Dir::Tasks(SD),
    ];
    for dir in folders {
        if disk.make_dir(host, dir) != Err(DiskAnswer::Exists) {
            return false;
        }
    }
    has_text(disk)
        && is_zeros(disk, LEASES, 128, each)
        && is_zeros(disk, INBOX, 251, each)
        && is_zeros(disk, OUTBOX, 251, each)
}

// A disk that settles by the pick and fails in one call.
fn disk_with(alloc: Global, pick: Pick, failing: u64) -> Result<Memory, NoMemory> {
    let mut picks = Vec::new(alloc);
    let mut list = Vec::new(alloc);
    if picks.push(pick).is_err() || list.push(failing).is_err() {
        return Err(NoMemory);
    }
    Memory::new(alloc, picks, list, 6_000)
}

// Calls that no disk of these tests makes.
const NEVER: u64 = 1_000_000;

#[test]
fn a_pool_is_made_whole(rt: HostRuntime) -> Result<(), Fail> {
    let host = HostId::new(1).ok_or("no host")?;
    let mut disk = disk_with(rt.alloc(), Pick::Old, NEVER)?;
    // One folder listed, none to check, one look for images, five folders, nine calls for the three files, five for the
    // text.
    assert!(rt; make(rt.alloc(), &mut disk, host, 64) == End::Done(21));
    disk.down(host);
    assert!(rt; is_whole(&mut disk, host, 1));
    assert!(rt; make(rt.alloc(), &mut disk, host, 64) == End::Refused(2, 31));
    Ok(())
}

// Whether a making that fails in this call, from 0, is refused there, and leaves no domain; and whether, once its
// host went down, another host makes the pool whole.
fn is_made_after_a_fault(alloc: Global, pick: Pick, failing: u16) -> Result<bool, NoMemory>
    requires { failing < 21 }
{
    let (Some(host), Some(other)) = (HostId::new(1), HostId::new(2)) else {
        return Ok(false);
    };
    let mut disk = disk_with(alloc, pick, u64::from(failing))?;
    let mut sector = [0; 512];
    let refused = make(alloc, &mut disk, host, 64) == End::Refused(failing + 1, 120);
    disk.down(host);
    let none = disk.bytes(METADATA, 0, &mut sector).is_none();
    let again = matches!(make(alloc, &mut disk, other, 64), End::Done(_));
    disk.down(other);
    Ok(refused && none && again && is_whole(&mut disk, host, 50))
}

// The same of a making whose host goes down after so many steps.
fn is_made_after_a_cut(alloc: Global, pick: Pick, steps: u16) -> Result<bool, NoMemory> {
    let (Some(host), Some(other)) = (HostId::new(1), HostId::new(2)) else {
        return Ok(false);
    };
    let mut disk = disk_with(alloc, pick, NEVER)?;
    let mut sector = [0; 512];
    let cut = make(alloc, &mut disk, host, steps) == End::Other;
    disk.down(host);
    let none = disk.bytes(METADATA, 0, &mut sector).is_none();
    let again = matches!(make(alloc, &mut disk, other, 64), End::Done(_));
    disk.down(other);
    Ok(cut && none && again && is_whole(&mut disk, host, 50))
}

#[test]
fn each_fault_is_made_good(rt: HostRuntime) -> Result<(), Fail> {
    for call in 0..21 {
        for pick in [Pick::Old, Pick::New, Pick::Byte(0x55)] {
            assert!(rt;
                is_made_after_a_fault(rt.alloc(), pick, call)?,
                "{pick:?}, fault in call {call}"
            );
        }
    }
    Ok(())
}

#[test]
fn each_cut_is_made_good(rt: HostRuntime) -> Result<(), Fail> {
    for call in 0..21 {
        for pick in [Pick::Old, Pick::New, Pick::Byte(0x55)] {
            assert!(rt;
                is_made_after_a_cut(rt.alloc(), pick, call)?,
                "{pick:?}, cut before call {call}"
            );
        }
    }
    Ok(())
}

// What an earlier attempt left, with other bytes and lengths; what other folders hold.
#[test]
fn what_was_left_is_made_again(rt: HostRuntime) -> Result<(), Fail> {
    let host = HostId::new(1).ok_or("no host")?;
    let mut disk = disk_with(rt.alloc(), Pick::Old, NEVER)?;
    disk.put(LEASES, &[0x4c; 512])?;
    disk.put(OUTBOX, &[1; 4096])?;
    disk.put(NEW, &[b'x'; 512])?;
    disk.make_dir(host, Dir::Domain(GREATER))?;
    assert!(rt; matches!(make(rt.alloc(), &mut disk, host, 64), End::Done(_)));
    assert!(rt; is_whole(&mut disk, host, 1));
    Ok(())
}

// The number of the refusal of a making over a folder that holds this domain's text, and the folder of an image.
fn refused_over(alloc: Global, pool: Option<Id>, image: Option<Dir>) -> Result<u16, NoMemory> {
    let Some(host) = HostId::new(1) else {
        return Ok(0);
    };
    let mut disk = disk_with(alloc, Pick::Old, NEVER)?;
    if let Some(sd) = pool {
        let place = Place {
            dir: Dir::DomMd(sd),
            name: Name::Metadata,
        };
        disk.put(place, &[0; 512])?;
    }
    if let Some(dir) = image {
        let place = Place {
            dir,
            name: Name::Volume(SD),
        };
        disk.put(place, &[0; 512])?;
    }
    match make(alloc, &mut disk, host, 64) {
        End::Refused(_, number) => Ok(number),
        End::Done(_) | End::Other => Ok(0),
    }
}

#[test]
fn a_pool_or_images_are_refused(rt: HostRuntime) -> Result<(), Fail> {
    for sd in [LESSER, SD, GREATER] {
        assert!(rt; refused_over(rt.alloc(), Some(sd), None)? == 31);
    }
    assert!(rt; refused_over(rt.alloc(), None, Some(Dir::Image(SD, SD)))? == 33);
    assert!(rt; refused_over(rt.alloc(), None, Some(Dir::Removed(SD, SD)))? == 33);
    // 31 comes before 33, and the images of another domain don't count.
    assert!(rt; refused_over(rt.alloc(), Some(GREATER), Some(Dir::Image(SD, SD)))? == 31);
    assert!(rt; refused_over(rt.alloc(), None, Some(Dir::Image(GREATER, SD)))? == 0);
    Ok(())
}
