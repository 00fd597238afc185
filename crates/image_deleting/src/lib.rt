//! Deleting an image: its sector is taken for a task, the task begun, its files removed, the sector emptied, and the task ended.
#![tactic(auto)]

mod deleting;
mod laws;
mod removal_task;
mod stages;

pub use deleting::{DeleteImage, Stage};
pub use laws::{
    a_begun_deletion_is_bounded, a_begun_deletion_knows_its_domain,
    a_deleted_image_survives_crashes, deletion_knowledge_survives_others,
    deletions_leave_only_theirs,
};
pub use removal_task::RemovalTask;
