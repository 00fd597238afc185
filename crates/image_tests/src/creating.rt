// Creating an image under a task: what stands at the end, after a fault and a cut at each call, and the refusals.
ghost use Rattle.std.specs.Prelude.{◌<◌, ◌≤◌};

use crate::making::{calls_for, holds_at, is_whole, version_for};
use crate::shared::{
    BEFORE, End, NEVER, OWN, SD, VOLUME, at, disk_with, is_gone, new_image, remove,
};
use image_creating::CreateImage;
use memory_disk::{Memory, Pick};
use sd_names::{Dir, Format, HostId, Id, Name, NoMemory, Place, Turn, UpSet};
use shared_disk::{Exchanged, SharedDisk};
use std::alloc::Global;
use std::test::Fail;

pub const TASK: Id = Id([0, 0, 0, 0, 0, 0, 0x40, 0, 0x80, 0, 0, 0, 0, 0, 0, 9]);

pub const LEASES: Place = Place {
    dir: Dir::DomMd(SD),
    name: Name::Leases,
};

const TEXT: Place = Place {
    dir: Dir::Tasks(SD),
    name: Name::Task(TASK),
};

// The task's texts, as `docs/FORMATS.md` has them.
const OPEN_TEXT: &[u8] =
    b"STATE=OPEN\nSTEP00=RemoveImage 00000000-0000-4000-8000-000000000002 00000000-0000-4000-8000-000000000003\nVERB=create\nEOF\n";

const DONE_TEXT: &[u8] = b"STATE=DONE\nVERB=create\nEOF\n";

// The first 32 bytes of the image's sector: held for the task by host 1, and held by nobody, at version 1.
pub const HELD: [u8; 32] = [
    b'L', b'E', b'A', b'S', 2, 1, 0, 0, 0, 0, 0, 0, 0, 0, 0, 1, 0, 0, 0, 0, 0, 0, 0x40, 0, 0x80, 0,
    0, 0, 0, 0, 0, 3,
];

pub const FREE: [u8; 32] = [
    b'L', b'E', b'A', b'S', 0, 0, 0, 0, 0, 0, 0, 0, 0, 0, 0, 1, 0, 0, 0, 0, 0, 0, 0x40, 0, 0x80, 0,
    0, 0, 0, 0, 0, 3,
];

// The calls that make the rest of the domain, behind those of `disk_with`.
const REST: u64 = 5;

// A domain with its folders and a leases file of empty sectors, which settles by the pick and fails in one call of those that
// follow, from 0.
pub fn domain_with(
    alloc: Global,
    host: HostId,
    pick: Pick,
    failing: Option<u16>,
) -> Result<Memory, NoMemory> {
    let number = match failing {
        Some(call) => BEFORE + REST + u64::from(call),
        None => NEVER,
    };
    let mut disk = disk_with(alloc, host, pick, number)?;
    let made = disk.make_dir(host, Dir::DomMd(SD)).is_ok()
        && disk.make_dir(host, Dir::Master(SD)).is_ok()
        && disk.make_dir(host, Dir::Tasks(SD)).is_ok()
        && disk.create(host, LEASES, 524_288).is_ok()
        && disk.sync(host, LEASES).is_ok();
    if made { Ok(disk) } else { Err(NoMemory) }
}

// Creates the image, or so many steps of it.
pub fn create(alloc: Global, disk: &mut Memory, host: HostId, format: Format, most: u16) -> End {
    let Ok(image) = new_image(alloc, format, version_for(format)) else {
        return End::Other;
    };
    let Ok(mut work) = CreateImage::begin(alloc, SD, TASK, image) else {
        return End::Other;
    };
    let up = UpSet::new();
    for step in 1..=most {
        match work.step(host, &up, disk) {
            Turn::More(next) => work = next,
            Turn::Done(()) => return End::Done(step),
            Turn::Ended((), refusal) => return End::Refused(step, refusal.number()),
        }
    }
    work.lost();
    End::Other
}

// How many calls a creation makes: the folder, eight reads of sectors, five for each of the task's texts, two exchanges, and
// those of the files.
pub fn calls_of(format: Format) -> u16
    ensures { result ≤ 32 }
{
    21 + calls_for(format)
}

// Whether the image's sector, the first one, begins with these bytes.
pub fn sector_is(disk: &Memory, bytes: &[u8]) -> bool {
    holds_at(disk, LEASES, 512, bytes)
}

// Whether the image is there whole, nobody holds it, and its task is done.
fn is_created(disk: &mut Memory, host: HostId, format: Format) -> bool {
    is_whole(disk, host, format) && sector_is(disk, &FREE) && holds_at(disk, TEXT, 0, DONE_TEXT)
}

#[test]
fn images_are_created_whole(rt: HostRuntime) -> Result<(), Fail> {
    let host = HostId::new(1).ok_or("no host")?;
    for format in [Format::Raw, Format::Cow] {
        for pick in [Pick::Old, Pick::Byte(0x55)] {
            let mut disk = domain_with(rt.alloc(), host, pick, None)?;
            let end = create(rt.alloc(), &mut disk, host, format, 64);
            assert!(rt; end == End::Done(calls_of(format)), "{end:?}");
            disk.down(host);
            assert!(rt; is_created(&mut disk, host, format), "{format:?}");
            let there = create(rt.alloc(), &mut disk, host, format, 64);
            assert!(rt; there == End::Refused(1, 51), "{there:?}");
            let removed = matches!(remove(&mut disk, host, 64), End::Done(_));
            let named = create(rt.alloc(), &mut disk, host, format, 64);
            assert!(rt; removed && named == End::Refused(9, 51), "{named:?}");
        }
    }
    Ok(())
}

// Whether what stands is nothing, or what an open task makes, or the whole image: by the task's text and the sector.
fn is_standing(disk: &mut Memory, host: HostId) -> bool {
    let mut room = [0; 512];
    let folder = disk.next_name(host, OWN, None).is_ok();
    let text = disk
        .bytes(at(OWN, Name::Meta(VOLUME)), 0, &mut room)
        .is_some();
    let untold = disk.bytes(TEXT, 0, &mut room).is_none();
    let open = holds_at(disk, TEXT, 0, OPEN_TEXT);
    let done = holds_at(disk, TEXT, 0, DONE_TEXT);
    let held = sector_is(disk, &HELD);
    let absent = !folder && sector_is(disk, b"") && (untold || open);
    let whole = is_whole(disk, host, Format::Raw);
    let being_made = open && held && (!text || whole);
    absent || being_made || (done && whole && (held || sector_is(disk, &FREE)))
}

// Whether the creation of a raw image that fails in this call, from 0, is refused there, or that is cut before it; and what stands once its host
// went down.
fn leaves_well(alloc: Global, pick: Pick, call: u16, fails: bool) -> Result<bool, NoMemory>
    requires { call < 32 }
{
    let Some(host) = HostId::new(1) else {
        return Ok(false);
    };
    let (failing, most, wanted) = if fails {
        (Some(call), 64, End::Refused(call + 1, 120))
    } else {
        (None, call, End::Other)
    };
    let mut disk = domain_with(alloc, host, pick, failing)?;
    let ended = create(alloc, &mut disk, host, Format::Raw, most) == wanted;
    disk.down(host);
    Ok(ended && is_standing(&mut disk, host))
}

#[test]
fn each_fault_and_cut_leaves_nothing_astray(rt: HostRuntime) -> Result<(), Fail> {
    for call in 0..calls_of(Format::Raw) {
        for pick in [Pick::Old, Pick::Byte(0x55)] {
            for fails in [true, false] {
                assert!(rt;
                    leaves_well(rt.alloc(), pick, call, fails)?,
                    "{pick:?}, call {call} {fails}"
                );
            }
        }
    }
    Ok(())
}

// The number of the refusal of a creation that finds these bytes in the first sector when it takes it, which was empty when it
// was read: the fifteenth call takes it.
fn refused_for(
    alloc: Global,
    disk: &mut Memory,
    host: HostId,
    next: &[u8; 512],
) -> Result<u16, NoMemory> {
    let image = new_image(alloc, Format::Raw, 5)?;
    let Ok(mut work) = CreateImage::begin(alloc, SD, TASK, image) else {
        return Ok(0);
    };
    let up = UpSet::new();
    for step in 1..16_u16 {
        if step == 15 && disk.exchange(host, LEASES, 1, &[0; 512], next) != Ok(Exchanged::Done) {
            work.lost();
            return Ok(1);
        }
        match work.step(host, &up, disk) {
            Turn::More(next) => work = next,
            Turn::Done(()) => return Ok(0),
            Turn::Ended((), refusal) => return Ok(refusal.number()),
        }
    }
    work.lost();
    Ok(0)
}

// A sector with these bytes, and zeros behind them, but for the last byte of its image.
pub fn sector_with(front: &[u8; 32], last: u8) -> [u8; 512] {
    let mut sector = [0; 512];
    sector[..32].copy_from_slice(front);
    sector[31] = last;
    sector
}

#[test]
fn full_and_changed_sectors_are_refused(rt: HostRuntime) -> Result<(), Fail> {
    let host = HostId::new(1).ok_or("no host")?;
    let mut full = domain_with(rt.alloc(), host, Pick::Old, None)?;
    for part in 0..8_u64 {
        let put = full.write_at(host, LEASES, 65_536 * part, &[0x11; 65_536]);
        assert!(rt; put == Ok(()), "{put:?}");
    }
    assert!(rt; full.sync(host, LEASES) == Ok(()));
    let end = create(rt.alloc(), &mut full, host, Format::Raw, 64);
    assert!(rt; end == End::Refused(9, 54), "{end:?}");
    // Another image's sector is 50, and one of this image, which a task holds, 52.
    for (last, number) in [(4, 50), (3, 52)] {
        let mut disk = domain_with(rt.alloc(), host, Pick::Old, None)?;
        let refused = refused_for(rt.alloc(), &mut disk, host, &sector_with(&HELD, last))?;
        assert!(rt; refused == number, "{refused}");
        let open = holds_at(&disk, TEXT, 0, OPEN_TEXT);
        assert!(rt; open && is_gone(&mut disk, host));
    }
    Ok(())
}
