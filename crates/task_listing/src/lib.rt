//! The tasks of a pool, listed and read by its manager.
#![tactic(auto)]

pub mod laws;
mod listing;

pub use listing::{ListedTasks, Stage, TaskListing};
