// Deleting an image under a task: what stands at the end, after a fault and a cut at each call, and the refusals.
ghost use Rattle.std.specs.Prelude.{◌<◌};

use crate::creating::{FREE, HELD, LEASES, calls_of, create, domain_with, sector_is, sector_with};
use crate::making::{holds_at, is_whole};
use crate::shared::{End, IMAGE, SD, is_gone, remove};
use image_deleting::DeleteImage;
use memory_disk::{Memory, Pick};
use sd_names::{Dir, Format, HostId, Id, Name, NoMemory, Place, Turn, UpSet};
use shared_disk::{Exchanged, SharedDisk};
use std::alloc::Global;
use std::test::Fail;

const TASK: Id = Id([0, 0, 0, 0, 0, 0, 0x40, 0, 0x80, 0, 0, 0, 0, 0, 0, 0xA]);

const TEXT: Place = Place {
    dir: Dir::Tasks(SD),
    name: Name::Task(TASK),
};

// The task's texts, as `docs/FORMATS.md` has them.
const OPEN_TEXT: &[u8] =
    b"STATE=OPEN\nSTEP00=FinishRemove 00000000-0000-4000-8000-000000000002 00000000-0000-4000-8000-000000000003\nVERB=delete-image\nEOF\n";

const DONE_TEXT: &[u8] = b"STATE=DONE\nVERB=delete-image\nEOF\n";

// The first 32 bytes of the image's sector once host 1 has taken it for the task, at version 2, and of the same sector where a
// guest of host 2 has it.
const TAKEN: [u8; 32] = [
    b'L', b'E', b'A', b'S', 2, 1, 0, 0, 0, 0, 0, 0, 0, 0, 0, 2, 0, 0, 0, 0, 0, 0, 0x40, 0, 0x80, 0,
    0, 0, 0, 0, 0, 3,
];

const GUEST: [u8; 32] = [
    b'L', b'E', b'A', b'S', 1, 2, 0, 0, 0, 0, 0, 0, 0, 0, 0, 1, 0, 0, 0, 0, 0, 0, 0x40, 0, 0x80, 0,
    0, 0, 0, 0, 0, 3,
];

// The calls of a deletion: eight reads of sectors, two exchanges, five for each of the task's texts, and eight for two files and
// their folder.
const CALLS: u16 = 28;

// Deletes the image, or so many steps of it.
fn delete(alloc: Global, disk: &mut Memory, host: HostId, up: &UpSet, most: u16) -> End {
    let Ok(mut work) = DeleteImage::begin(alloc, SD, TASK, SD, IMAGE) else {
        return End::Other;
    };
    for step in 1..=most {
        match work.step(host, up, disk) {
            Turn::More(next) => work = next,
            Turn::Done(()) => return End::Done(step),
            Turn::Ended((), refusal) => return End::Refused(step, refusal.number()),
        }
    }
    work.lost();
    End::Other
}

// Whether the image has no folder and no sector.
fn is_removed(disk: &mut Memory, host: HostId) -> bool {
    is_gone(disk, host) && sector_is(disk, &[0; 512])
}

#[test]
fn images_are_deleted_whole(rt: HostRuntime) -> Result<(), Fail> {
    let host = HostId::new(1).ok_or("no host")?;
    let up = UpSet::new();
    for format in [Format::Raw, Format::Cow] {
        let mut disk = domain_with(rt.alloc(), host, Pick::Byte(0x55), None)?;
        let made = create(rt.alloc(), &mut disk, host, format, 64);
        assert!(rt; made == End::Done(calls_of(format)), "{made:?}");
        let end = delete(rt.alloc(), &mut disk, host, &up, 64);
        assert!(rt; end == End::Done(CALLS), "{end:?}");
        disk.down(host);
        assert!(rt;
            is_removed(&mut disk, host) && holds_at(&disk, TEXT, 0, DONE_TEXT),
            "{format:?}"
        );
        let again = delete(rt.alloc(), &mut disk, host, &up, 64);
        assert!(rt; again == End::Refused(8, 50), "{again:?}");
    }
    Ok(())
}

// Whether what stands is the whole image, which no open task removes; or an image that an open task removes; or none.
fn is_standing(disk: &mut Memory, host: HostId) -> bool {
    let mut room = [0; 512];
    let untold = disk.bytes(TEXT, 0, &mut room).is_none();
    let open = holds_at(disk, TEXT, 0, OPEN_TEXT);
    let done = holds_at(disk, TEXT, 0, DONE_TEXT);
    let taken = sector_is(disk, &TAKEN);
    let whole = untold && (taken || sector_is(disk, &FREE)) && is_whole(disk, host, Format::Raw);
    whole || (open && taken) || ((open || done) && is_removed(disk, host))
}

// Whether the deletion of a raw image that fails in this call, from 0, is refused there, or that is cut before it; and what
// stands once its host went down. Files that a cut removal has left are all removed by another one.
fn leaves_well(alloc: Global, pick: Pick, call: u16, fails: bool) -> Result<bool, NoMemory>
    requires { call < 28 }
{
    let (Some(host), Some(other)) = (HostId::new(1), HostId::new(2)) else {
        return Ok(false);
    };
    let made = calls_of(Format::Raw);
    let (failing, most, wanted) = if fails {
        (Some(made + call), 64, End::Refused(call + 1, 120))
    } else {
        (None, call, End::Other)
    };
    let mut disk = domain_with(alloc, host, pick, failing)?;
    let created = create(alloc, &mut disk, host, Format::Raw, 64) == End::Done(made);
    let ended = delete(alloc, &mut disk, host, &UpSet::new(), most) == wanted;
    disk.down(host);
    let stands = is_standing(&mut disk, host);
    let removed = matches!(remove(&mut disk, other, 64), End::Done(_));
    Ok(created && ended && stands && removed && is_gone(&mut disk, other))
}

#[test]
fn each_fault_and_cut_leaves_one_of_three(rt: HostRuntime) -> Result<(), Fail> {
    for call in 0..CALLS {
        for pick in [Pick::Old, Pick::Byte(0x55)] {
            for fails in [true, false] {
                assert!(rt;
                    leaves_well(rt.alloc(), pick, call, fails)?,
                    "{pick:?}, call {call} {fails}"
                );
            }
        }
    }
    Ok(())
}

// A raw image whose sector is changed to these bytes once it was made.
fn disk_with_sector(alloc: Global, host: HostId, next: &[u8; 512]) -> Result<Memory, NoMemory> {
    let mut disk = domain_with(alloc, host, Pick::Old, None)?;
    let made = matches!(
        create(alloc, &mut disk, host, Format::Raw, 64),
        End::Done(_)
    );
    let free = sector_with(&FREE, 3);
    if made && disk.exchange(host, LEASES, 1, &free, next) == Ok(Exchanged::Done) {
        Ok(disk)
    } else {
        Err(NoMemory)
    }
}

// Whether the image is whole and the task has no text.
fn is_untouched(disk: &mut Memory, host: HostId) -> bool {
    let mut room = [0; 512];
    disk.bytes(TEXT, 0, &mut room).is_none() && is_whole(disk, host, Format::Raw)
}

#[test]
fn images_in_use_are_refused(rt: HostRuntime) -> Result<(), Fail> {
    let host = HostId::new(1).ok_or("no host")?;
    let other = HostId::new(2).ok_or("no host")?;
    let mut both = UpSet::new();
    both.add(host);
    both.add(other);
    // A task's lease is kept, whoever is up; a guest's where its host is; another image's sector isn't this one's.
    let held = sector_with(&HELD, 3);
    let guest = sector_with(&GUEST, 3);
    let foreign = sector_with(&FREE, 4);
    for (sector, up, end) in [
        (held, UpSet::new(), End::Refused(9, 52)),
        (guest, both, End::Refused(9, 52)),
        (guest, UpSet::new(), End::Done(CALLS)),
        (foreign, UpSet::new(), End::Refused(8, 50)),
    ] {
        let mut disk = disk_with_sector(rt.alloc(), host, &sector)?;
        let ended = delete(rt.alloc(), &mut disk, host, &up, 64);
        assert!(rt; ended == end, "{ended:?}");
        let stays = is_untouched(&mut disk, host) && sector_is(&disk, &sector);
        assert!(rt; stays == matches!(end, End::Refused(_, _)));
    }
    Ok(())
}

// The number of the refusal of a deletion that finds these bytes in the sector when it takes it, which was free when it was read:
// the ninth call takes it.
fn refused_for(alloc: Global, disk: &mut Memory, host: HostId, next: &[u8; 512]) -> u16 {
    let Ok(mut work) = DeleteImage::begin(alloc, SD, TASK, SD, IMAGE) else {
        return 0;
    };
    let up = UpSet::new();
    let free = sector_with(&FREE, 3);
    for step in 1..10_u16 {
        if step == 9 && disk.exchange(host, LEASES, 1, &free, next) != Ok(Exchanged::Done) {
            work.lost();
            return 1;
        }
        match work.step(host, &up, disk) {
            Turn::More(next) => work = next,
            Turn::Done(()) => return 0,
            Turn::Ended((), refusal) => return refusal.number(),
        }
    }
    work.lost();
    0
}

#[test]
fn changed_sectors_are_refused(rt: HostRuntime) -> Result<(), Fail> {
    let host = HostId::new(1).ok_or("no host")?;
    // A task took the image; a guest did, whose host isn't up; and the sector went to another image.
    for (front, last, number) in [(&HELD, 3, 52), (&GUEST, 3, 52), (&HELD, 4, 50)] {
        let mut disk = domain_with(rt.alloc(), host, Pick::Old, None)?;
        let made = create(rt.alloc(), &mut disk, host, Format::Raw, 64);
        let refused = refused_for(rt.alloc(), &mut disk, host, &sector_with(front, last));
        assert!(rt; refused == number, "{made:?} {refused}");
        assert!(rt; is_untouched(&mut disk, host));
    }
    Ok(())
}
