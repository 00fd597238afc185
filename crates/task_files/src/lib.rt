//! The files of tasks: each is written open, replaced by the text of a task that is done or undone, and removed, so that a
//! crash leaves no file or one of its texts whole.
#![tactic(auto)]

mod laws;
mod read;
mod remove;
mod write;

pub use laws::{
    a_life_goes_on, a_stored_task_is_read, task_files_survive_crashes,
    task_knowledge_survives_others,
};
pub use read::read_task;
pub use remove::remove_task;
pub use write::TaskWrite;
