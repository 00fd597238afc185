//! What the top of two neighbouring volumes holds of a cluster, read piece by piece to be committed.
#![tactic(auto)]

mod clusters;
pub mod laws;
mod looking;
mod pieces;
mod reading;
mod stepping;

pub use pieces::Pieces;
pub use reading::CommitReading;
