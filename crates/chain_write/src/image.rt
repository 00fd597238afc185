// The image: its names, and its making.
ghost use Rattle.std.specs.Prelude.{◌≢◌};
ghost use Rattle.sd_names.specs.declared.place.Dir.TheVariants.{Root};

use crate::order::Image;
use image_making::{ImageMaking, NewImage, Shape};
use sd_names::{AllocKind, Dir, HostId, Id, Refusal, Turn};
use shared_disk::{DiskAnswer, SharedDisk, refusal_for};
use std::alloc::Global;

/// The domain of the image.
pub(crate) const DOMAIN: Id = Id([0x11; 16]);

/// The image.
pub(crate) const IMAGE: Id = Id([0x22; 16]);

/// Its only volume.
const VOLUME: Id = Id([0x33; 16]);

/// The version of its texts.
pub(crate) const VERSION: u8 = 5;

// Makes a folder, where it isn't there yet.
fn make_dir<D: SharedDisk>(disk: &mut D, host: HostId, dir: Dir) -> Result<(), Refusal>
    requires { dir ≢ Root }
{
    match disk.make_dir(host, dir) {
        Ok(()) | Err(DiskAnswer::Exists) => Ok(()),
        Err(answer) => Err(refusal_for(answer, disk)),
    }
}

/// Makes the image, of one volume, and the folders of its domain on the way. The end of the loop isn't reached: twelve steps
/// make an image.
pub(crate) fn make_image<D: SharedDisk>(
    alloc: Global,
    host: HostId,
    disk: &mut D,
    wanted: Image,
) -> Result<(), Refusal> {
    make_dir(disk, host, Dir::Domain(DOMAIN))?;
    make_dir(disk, host, Dir::Images(DOMAIN))?;
    let shape = Shape {
        format: wanted.format,
        kind: AllocKind::Sparse,
        capacity: wanted.capacity,
        ctime: 0,
    };
    let Ok(image) = NewImage::base(alloc, DOMAIN, IMAGE, VERSION, VOLUME, shape, b"") else {
        return Err(Refusal::OutOfMemory);
    };
    let mut work = ImageMaking::begin(image);
    for _ in 0..12 {
        match work.step(host, disk) {
            Turn::More(next) => work = next,
            Turn::Done(()) => return Ok(()),
            Turn::Ended((), refusal) => return Err(refusal),
        }
    }
    Err(Refusal::NotBuilt)
}
