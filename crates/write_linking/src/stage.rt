// How far the linking of a write is.
use layer_linking::Linking;
use write_preparing::Placed;

/// How far it is.
#[derive(Drop)]
pub(crate) enum Stage {
    /// The clusters are written, and not yet synced.
    Syncing(Placed),
    /// All is synced. The sector of entries with this index comes next.
    Next(Placed, usize),
    /// The entries of a sector are made. The one with this index comes next.
    Links(Placed, usize, Linking),
}
