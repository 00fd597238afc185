// How far the settling of an image is.
use layer_heading::Rebasing;
use settling_steps::{Lengthening, Tidying};
use volume_chain::Chain;
use volume_texts::TextWrite;

/// Which of the texts' values are rewritten.
#[derive(Clone, Copy, Debug)]
pub(crate) enum Part {
    /// Parents.
    Parents,
    /// VOLTYPEs, once all parents are rewritten.
    Types,
}

/// How far the settling of an image is.
#[derive(Drop)]
pub(crate) enum Stage {
    /// Temporary names are removed.
    Tidying(Chain, Tidying),
    /// None is left, and the files of the first layers of the path, up to this place, are of whole clusters.
    Lengths(Chain, usize),
    /// The file of the layer at this place of the path is grown.
    Lengthening(Chain, usize, Lengthening),
    /// All files of layers are of whole clusters, and the headers of the first ones, up to this place, name the parents that
    /// count.
    Headers(Chain, usize),
    /// The header of the layer at this place of the path is rewritten.
    Heading(Chain, usize, Rebasing),
    /// All headers of the path are so, and this value is rewritten in the texts of the first volumes, up to this place.
    Texts(Chain, Part, usize),
    /// The text of the volume at this place of the list is rewritten.
    Writing(Chain, Part, usize, TextWrite),
}
