//! A guest's write of a part to a volume of an open chain.
#![tactic(auto)]

mod finding;
mod guest;
pub mod laws;
mod layers;
mod stage;

pub use guest::GuestWrite;
