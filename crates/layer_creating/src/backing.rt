// What a layer lies over.
use sd_names::{Format, Id};

/// The volume that a layer lies over, and how its file holds its bytes.
#[derive(Clone, Copy, Debug, PartialEq, Eq)]
pub struct Backing {
    /// The volume's identifier. Its text is the name of the backing file.
    pub parent: Id,
    /// How the volume's file holds its bytes.
    pub format: Format,
}
