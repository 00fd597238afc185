//! Small text files: read whole, and replaced whole, so that a crash leaves the old text or the new one.
#![tactic(auto)]

pub mod laws;
mod read;
mod replace;

pub use read::{LONGEST, ROOM, Text, read_text};
pub use replace::{Replace, Stage};
