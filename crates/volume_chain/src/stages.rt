// How far the opening of a chain is.
use crate::chain::{Chain, Target};
use crate::volumes::OpenVolumes;
use chain_gathering::Gathering;
use qcow_layer::Opening;

/// How far the opening of a chain is.
#[derive(Drop)]
pub(crate) enum Stage {
    /// The folder is listed, the volumes' files and texts are synced, and the texts are read.
    Gathering(Target, OpenVolumes, Gathering),
    /// The records passed their checks, and the first volumes of the path are open.
    Along(Chain),
    /// So it is, and the layer of the next volume is being opened.
    Layer(Chain, Opening),
}
