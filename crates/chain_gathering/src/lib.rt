//! The first part of an image's opening: its folder is listed, each volume's file and text is synced, and the texts are
//! read.
#![tactic(auto)]

mod found;
mod gathered;
mod gathering;
pub mod laws;
mod names;
mod stages;

pub use found::{Found, FoundVolumes};
pub use gathered::Gathered;
pub use gathering::Gathering;
