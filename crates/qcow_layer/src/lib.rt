//! Copy-on-write layers in qcow2 files: opening one, which finds its first fault, and looking its clusters up.
#![tactic(auto)]

mod fresh;
pub mod laws;
mod layer;
mod looking;
mod opening;
mod reading;
mod stages;
mod starting;

pub use layer::Layer;
pub use looking::{Looked, Looking};
pub use opening::Opening;
pub use reading::read_sector;
