// A volume with its record.

use sd_names::Id;
use volume_meta::VolumeRecord;

/// A volume of an image, with what the text beside it says.
#[derive(Debug, Drop)]
pub struct Volume {
    /// The volume.
    pub id: Id,
    /// What its text says.
    pub meta: VolumeRecord,
    /// Whether its file is there.
    pub has_file: bool,
}
