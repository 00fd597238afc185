//! What a guest's write of a part does with each cluster that the part meets, found out before anything is changed: no
//! call of the disk.
#![tactic(auto)]

pub mod laws;
mod linked;
mod plan;
mod span;

pub use plan::{Target, WritePlan};
pub use span::{Piece, Span};
