//! The role of a pool's manager (the SPM): taking it by one exchange, and giving it up.
#![tactic(auto)]

pub mod laws;
mod listing;
mod lists;
mod looking;
mod master;
mod spm;
mod start;
mod stop;

pub use lists::{DomainList, TASKS, TaskList};
pub use spm::Spm;
pub use start::{SpmStart, Stage};
pub use stop::spm_stop;
