//! Removing the files of an image: its folder gets the removed name, then its files go, then the folder.
#![tactic(auto)]

mod laws;
mod removing;

pub use laws::{a_removed_image_survives_crashes, removal_knowledge_survives_others};
pub use removing::{ImageRemoving, Pass, Stage};
