//! Entering clusters of the virtual disk into the tables of a layer: several entries of one sector by one write.
#![tactic(auto)]

mod filling;
pub mod laws;
mod linking;
mod links;
mod reading;
mod writing;

pub use linking::{Linking, Stage};
pub use links::Links;
