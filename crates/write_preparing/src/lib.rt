//! A guest's write to a layer up to its new clusters: room is found, clusters are taken, and the part stands over data.
#![tactic(auto)]

mod beginning;
mod placed;
mod placing;
mod preparing;
mod stage;
mod writing;

pub use placed::Placed;
pub use preparing::Preparing;
