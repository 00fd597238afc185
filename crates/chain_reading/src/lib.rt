//! Reading a part of a volume through the chain of its image.
#![tactic(auto)]

mod asked;
mod choosing;
pub mod laws;
mod laying;
mod looking;
mod part;
mod running;
mod stepping;

pub use part::ReadPart;
pub use stepping::place_on;
