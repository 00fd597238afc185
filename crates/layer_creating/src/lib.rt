//! The file of a new layer: what stands in it, and the steps that make it.
#![tactic(auto)]

mod backing;
mod creating;
mod header;
pub mod laws;
mod sectors;

pub use backing::Backing;
pub use creating::{Creating, Made};
pub use header::new_header;
