//! Creating an image: its task is begun, a lease sector taken for it, its files made, the task ended, and the sector freed.
#![tactic(auto)]

mod creating;
mod image_task;
mod laws;
mod stages;

pub use creating::{CreateImage, Stage};
pub use image_task::ImageTask;
pub use laws::{
    a_begun_creation_knows_its_domain, a_created_image_survives_crashes,
    creation_knowledge_survives_others, creations_leave_only_theirs,
};
