//! Writing a cluster of a layer's volume whole: a guest's part over what the volumes below read there.
#![tactic(auto)]

mod below;
mod cluster;
mod filling;
pub mod laws;
mod laying;
mod pieces;

pub use below::source;
pub use cluster::NewCluster;
pub use filling::Filling;
