// What the tests share: the names of an image, and whole runs of its making and of its removal.
ghost use Rattle.std.specs.Prelude.{◌≡◌, IfOk};
ghost use Rattle.volume_meta.specs.Valid.{IsCapacity};
ghost use Rattle.image_making.specs.Record.{IsBase};

use image_making::{ImageMaking, NewImage, Shape};
use image_removing::ImageRemoving;
use memory_disk::{Memory, Pick};
use sd_names::{AllocKind, Dir, Format, HostId, Id, Name, NoMemory, Place, Turn};
use shared_disk::SharedDisk;
use std::alloc::Global;

pub const SD: Id = Id([0, 0, 0, 0, 0, 0, 0x40, 0, 0x80, 0, 0, 0, 0, 0, 0, 2]);

pub const IMAGE: Id = Id([0, 0, 0, 0, 0, 0, 0x40, 0, 0x80, 0, 0, 0, 0, 0, 0, 3]);

pub const VOLUME: Id = Id([0, 0, 0, 0, 0, 0, 0x40, 0, 0x80, 0, 0, 0, 0, 0, 1, 1]);

pub const OWN: Dir = Dir::Image(SD, IMAGE);

pub const REMOVED: Dir = Dir::Removed(SD, IMAGE);

// A file of a folder.
pub fn at(dir: Dir, name: Name) -> Place {
    Place { dir, name }
}

// How a verb ended, after so many steps.
#[derive(Clone, Copy, Debug, PartialEq, Eq)]
pub enum End {
    Done(u16),
    // With the number of the refusal.
    Refused(u16, u16),
    // It never began, or took more steps than these tests allow.
    Other,
}

// Calls that no disk of these tests makes.
pub const NEVER: u64 = 1_000_000;

// The calls that make the domain's folders.
pub const BEFORE: u64 = 2;

// A disk with the domain's folder of images, which settles by the pick and fails in one call behind those two.
pub fn disk_with(
    alloc: Global,
    host: HostId,
    pick: Pick,
    failing: u64,
) -> Result<Memory, NoMemory> {
    let mut picks = Vec::new(alloc);
    let mut list = Vec::new(alloc);
    if picks.push(pick).is_err() || list.push(failing).is_err() {
        return Err(NoMemory);
    }
    let mut disk = Memory::new(alloc, picks, list, 6_000)?;
    let domain = disk.make_dir(host, Dir::Domain(SD));
    let images = disk.make_dir(host, Dir::Images(SD));
    if domain.is_err() || images.is_err() {
        return Err(NoMemory);
    }
    Ok(disk)
}

// The capacity of the image that is made, in bytes.
fn capacity_for(format: Format) -> u64
    ensures { IsCapacity result }
{
    match format {
        Format::Raw => 1_024,
        Format::Cow => 1_073_741_824,
    }
}

// The image that is made.
pub fn new_image(alloc: Global, format: Format, version: u8) -> Result<NewImage, NoMemory>
    ensures base { IfOk result (λ new. IsBase new.says) }
    ensures image { IfOk result (λ new. new.says.image ≡ IMAGE) }
{
    let shape = Shape {
        format,
        kind: AllocKind::Sparse,
        capacity: capacity_for(format),
        ctime: 1_700_000_000,
    };
    NewImage::base(alloc, SD, IMAGE, version, VOLUME, shape, b"disk")
}

// Makes the image, or so many steps of it.
pub fn make(
    alloc: Global,
    disk: &mut Memory,
    host: HostId,
    format: Format,
    version: u8,
    most: u16,
) -> End {
    let Ok(image) = new_image(alloc, format, version) else {
        return End::Other;
    };
    let mut work = ImageMaking::begin(image);
    for step in 1..=most {
        match work.step(host, disk) {
            Turn::More(next) => work = next,
            Turn::Done(()) => return End::Done(step),
            Turn::Ended((), refusal) => return End::Refused(step, refusal.number()),
        }
    }
    End::Other
}

// Removes the image, or so many steps of it.
pub fn remove(disk: &mut Memory, host: HostId, most: u16) -> End {
    let mut work = ImageRemoving::begin(SD, IMAGE);
    for step in 1..=most {
        match work.step(host, disk) {
            Turn::More(next) => work = next,
            Turn::Done(()) => return End::Done(step),
            Turn::Ended((), refusal) => return End::Refused(step, refusal.number()),
        }
    }
    End::Other
}

// Whether the image has no folder.
pub fn is_gone(disk: &mut Memory, host: HostId) -> bool {
    disk.next_name(host, OWN, None).is_err() && disk.next_name(host, REMOVED, None).is_err()
}
