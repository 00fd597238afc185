// How far a guest's write is.
use raw_writing::RawWriting;
use write_filling::Fillings;
use write_linking::WriteLinking;
use write_preparing::Preparing;

/// How far it is. A volume that has a layer is known by its index on the chain's path.
#[derive(Drop)]
pub(crate) enum Stage {
    /// The volume wasn't found on the path yet.
    Begun,
    /// It is a raw one.
    Raw(RawWriting),
    /// Room is found, clusters are taken, and the part is written over data.
    Preparing(usize, Preparing),
    /// New clusters are written whole.
    Filling(usize, Fillings),
    /// All is synced, and the new clusters get their entries.
    Linking(usize, WriteLinking),
}
