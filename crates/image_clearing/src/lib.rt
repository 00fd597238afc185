//! Clearing an image away under its task: its sector is looked for, its files go, and the sector is emptied.
#![tactic(auto)]

mod clearing;
mod laws;
mod stages;

pub use clearing::{ImageClearing, Stage};
pub use laws::{
    a_begun_clearing_knows_its_image, a_clearing_survives_crashes,
    clearing_knowledge_survives_others,
};
