// What a memory disk keeps of a file, and of a write that isn't synced.
ghost use Rattle.std.specs.Prelude.{◌^◌, ◌<◌};

use sd_names::{HostId, Place};

/// A file: its place, its size in sectors and the host that made it and hasn't synced it. Its number is its index.
#[derive(Clone, Copy)]
pub(crate) struct FileEntry {
    pub(crate) place: Place,
    pub(crate) size: u64,
    pub(crate) fresh: Option<HostId>,
    ghost fits: { size < 2 ^ 55 },
}

/// A write of one sector of a file by a host that hasn't synced it.
#[derive(Clone, Copy)]
pub(crate) struct Write {
    pub(crate) host: HostId,
    pub(crate) file: usize,
    pub(crate) sector: u64,
    pub(crate) bytes: [u8; 512],
    // Whether the host had no other write of the sector that waited: each sector has one such write.
    pub(crate) first: bool,
}
