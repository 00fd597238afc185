// Removing an image: a fault and a cut at each call, and folders under either name.
ghost use Rattle.std.specs.Prelude.{◌<◌};

use crate::shared::{
    BEFORE, End, NEVER, OWN, REMOVED, VOLUME, at, disk_with, is_gone, make, remove,
};
use memory_disk::{Memory, Pick};
use sd_names::{Format, HostId, Name, NoMemory, Place};
use shared_disk::SharedDisk;
use std::alloc::Global;
use std::test::Fail;

// The calls of the making of a raw image, and of its removal: two look at what an earlier one left and move the folder, six
// list and remove its two files, and one the folder.
const MADE: u16 = 8;

const CALLS: u16 = 8;

// Whether a removal that fails in this call, from 0, is refused there, or that is cut before it; and whether, once its host went
// down, another host removes what is left, after which nothing is left to do.
fn is_removed_after(alloc: Global, pick: Pick, call: u16, fails: bool) -> Result<bool, NoMemory>
    requires { call < 8 }
{
    let (Some(host), Some(other)) = (HostId::new(1), HostId::new(2)) else {
        return Ok(false);
    };
    let (failing, most, wanted) = if fails {
        let number = BEFORE + u64::from(MADE) + u64::from(call);
        (number, 64, End::Refused(call + 1, 120))
    } else {
        (NEVER, call, End::Other)
    };
    let mut disk = disk_with(alloc, host, pick, failing)?;
    let made = make(alloc, &mut disk, host, Format::Raw, 5, 64) == End::Done(MADE);
    let ended = remove(&mut disk, host, most) == wanted;
    disk.down(host);
    let again = matches!(remove(&mut disk, other, 64), End::Done(_));
    let gone = is_gone(&mut disk, other);
    Ok(made && ended && again && gone && remove(&mut disk, other, 64) == End::Done(2))
}

#[test]
fn each_fault_and_cut_is_removed(rt: HostRuntime) -> Result<(), Fail> {
    for call in 0..CALLS {
        for pick in [Pick::Old, Pick::New, Pick::Byte(0x55)] {
            for fails in [true, false] {
                assert!(rt;
                    is_removed_after(rt.alloc(), pick, call, fails)?,
                    "{pick:?}, call {call} {fails}"
                );
            }
        }
    }
    Ok(())
}

// Puts a volume's file, its text, texts beside it and its lease into a folder.
fn put_files(disk: &mut Memory, places: &[Place]) -> Result<(), NoMemory> {
    for place in places {
        disk.put(*place, &[1; 512])?;
    }
    Ok(())
}

#[test]
fn folders_under_either_name_go(rt: HostRuntime) -> Result<(), Fail> {
    let host = HostId::new(1).ok_or("no host")?;
    let own = [
        at(OWN, Name::Volume(VOLUME)),
        at(OWN, Name::Meta(VOLUME)),
        at(OWN, Name::MetaNew(VOLUME)),
        at(OWN, Name::MetaVolatile(VOLUME)),
        at(OWN, Name::VolumeLease(VOLUME)),
    ];
    let removed = [
        at(REMOVED, Name::Volume(VOLUME)),
        at(REMOVED, Name::VolumeLease(VOLUME)),
    ];
    // None; the image's own folder; what an earlier removal left; and both.
    for (first, second, steps) in [(0, 0, 2), (5, 0, 14), (0, 2, 7), (5, 2, 19)] {
        let mut disk = disk_with(rt.alloc(), host, Pick::New, NEVER)?;
        put_files(&mut disk, &own[..first])?;
        put_files(&mut disk, &removed[..second])?;
        let end = remove(&mut disk, host, 64);
        assert!(rt; end == End::Done(steps), "{end:?}");
        assert!(rt; is_gone(&mut disk, host));
    }
    Ok(())
}
