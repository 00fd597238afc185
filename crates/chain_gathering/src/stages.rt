// How far a gathering is.
use crate::names::VolumeName;
use sd_names::{Id, Name};

/// Which image is gathered, in which domain, and the version by which its texts are read.
#[derive(Clone, Copy, Debug)]
pub(crate) struct Target {
    pub(crate) sd: Id,
    pub(crate) image: Id,
    pub(crate) version: u8,
}

/// What a listing has come to.
#[derive(Clone, Copy, Debug)]
pub(crate) struct Seen {
    /// The last name.
    pub(crate) after: Option<Name>,
    /// The last volume file.
    pub(crate) file: Option<Id>,
    /// How many texts there were.
    pub(crate) count: u64,
}

/// How far a gathering is.
#[derive(Clone, Copy, Debug)]
pub(crate) enum Stage {
    /// The files of volumes up to a name are listed and synced.
    Listing(Seen),
    /// This one comes next, and isn't synced yet.
    Syncing(Seen, VolumeName),
    /// All are synced, and some texts are read.
    Reading,
}
