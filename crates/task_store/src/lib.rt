//! Task files: the text of a task, which says what has become of it and how it is taken back or finished.
#![tactic(auto)]

mod laws;
mod parts;
mod reading;
mod steps;
mod task;
mod undo;
mod values;
mod writing;

pub use laws::{task_text_has_no_zero, task_text_is_short, task_text_reads_back};
pub use steps::Steps;
pub use task::Task;
pub use undo::Undo;

#[cfg(test)]
mod tests;
