//! Two parts of the settling of an image: the temporary names of its folder are removed, and a layer's file is grown to whole
//! clusters.
#![tactic(auto)]

mod leftovers;
mod lengthening;
mod names;

pub use leftovers::Tidying;
pub use lengthening::Lengthening;
