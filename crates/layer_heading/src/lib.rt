//! The header of a layer that is there gets another backing file, and loses the features that a writer clears.
#![tactic(auto)]

mod clearing;
mod clearing_stage;
mod header;
pub mod laws;
mod rebasing;

pub use clearing::Clearing;
pub use header::rebased;
pub use rebasing::{Rebasing, Stage};
