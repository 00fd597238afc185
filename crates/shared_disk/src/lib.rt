//! The shared folder as its hosts see it: files in sectors of 512 bytes, with writes that wait for a sync.
#![tactic(auto)]

mod disk;
pub mod laws;
mod refusal;

pub use disk::{DiskAnswer, Exchanged, SharedDisk};
pub use refusal::refusal_for;
