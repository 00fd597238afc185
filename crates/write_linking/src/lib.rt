//! The end of a guest's write to a layer: what was written is synced, and its new clusters get their entries.
#![tactic(auto)]

mod linking;
mod sectors;
mod stage;

pub use linking::WriteLinking;
