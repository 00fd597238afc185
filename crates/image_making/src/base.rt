// The record of a new image's only volume.
ghost use Rattle.std.specs.Prelude.{◌≡◌, ◌≤◌, length, IfOk};
ghost use Rattle.kv_text.specs.Text.{IsOneLine};
ghost use Rattle.volume_meta.specs.Valid.{IsCapacity};
ghost use Rattle.whole_file.specs.Text.{HasNoZero};
ghost use Rattle.image_making.specs.Base.{base_record};
ghost use Rattle.image_making.specs.Record.{IsBase};

use crate::making::NewImage;
use sd_names::{AllocKind, Bytes, Format, Id, Legality, NoMemory, VolType};
use std::alloc::Global;
use volume_meta::VolumeRecord;

/// What a new image's volume is to be.
#[derive(Clone, Copy, Debug)]
pub struct Shape {
    /// How the volume's file holds its bytes.
    pub format: Format,
    pub kind: AllocKind,
    /// In bytes: a multiple of 512, 512 to 1 TiB.
    pub capacity: u64,
    /// The moment of its making, in seconds.
    pub ctime: u64,
}

impl NewImage {
    /// The image `image` of the domain `sd`, whose only volume is `volume`: a LEGAL leaf without a parent, of disk type DATA and
    /// generation 0. The description has at most 4,096 bytes, none of them zero or a line feed.
    pub fn base(
        alloc: Global,
        sd: Id,
        image: Id,
        version: u8,
        volume: Id,
        shape: Shape,
        description: &[u8],
    ) -> Result<NewImage, NoMemory>
        requires capacity { IsCapacity shape.capacity }
        requires short { length description.now ≤ 4096 }
        requires one_line { IsOneLine description.now }
        requires plain { HasNoZero description.now }
        ensures says { IfOk result (λ new. new.says ≡ base_record sd image shape description.now) }
        ensures named { IfOk result (λ new. (new.version ≡ version) × (new.volume ≡ volume)) }
        ensures base { IfOk result (λ new. IsBase new.says) }
    {
        sd.has_sixteen_bytes();
        image.has_sixteen_bytes();
        let description = Bytes::copied(alloc, description)?;
        let disk_type = Bytes::copied(alloc, b"DATA")?;
        let says = VolumeRecord {
            capacity: shape.capacity,
            ctime: shape.ctime,
            description,
            disk_type,
            domain: sd,
            format: shape.format,
            generation: 0,
            image,
            legality: Legality::Legal,
            merged: false,
            parent: Id::ZERO,
            kind: shape.kind,
            voltype: VolType::Leaf,
        };
        Ok(NewImage {
            version,
            volume,
            says,
        })
    }
}
