//! Looking up each cluster of the virtual disk that a part meets, before the part is written.
#![tactic(auto)]

pub mod laws;
mod survey;

pub use survey::Survey;
