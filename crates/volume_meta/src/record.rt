// The record of a volume.
ghost use Rattle.std.specs.Prelude.{◌≡◌, ◌+◌, ◌%◌, ◌≤◌};

use sd_names::{AllocKind, Bytes, Format, Id, Legality, VolType};

/// What the text beside a volume says.
#[derive(Debug, Drop)]
pub struct VolumeRecord {
    /// In bytes: a multiple of 512, 512 to 1 TiB.
    pub capacity: u64,
    /// When the volume was made, in seconds.
    pub ctime: u64,
    /// At most 4,096 bytes.
    pub description: Bytes,
    /// 1 to 16 bytes.
    pub disk_type: Bytes,
    /// The volume's domain.
    pub domain: Id,
    pub format: Format,
    /// How often the volume was merged into, 0 to 999.
    pub generation: u16,
    /// The volume's image.
    pub image: Id,
    pub legality: Legality,
    /// Whether an illegal volume has been merged into the one below it.
    pub merged: bool,
    /// The volume below it, or zeros.
    pub parent: Id,
    pub kind: AllocKind,
    pub voltype: VolType,
}

/// The generation after `g`, which is at most 999: 0 after 999.
pub fn next_generation(g: u16) -> u16
    requires { g ≤ 999 }
    ensures { result ≡ (g + 1) % 1000 }
{
    if g == 999 { 0 } else { g + 1 }
}
