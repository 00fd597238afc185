//! The new clusters of a guest's write, written whole into the places that were taken for them.
#![tactic(auto)]

mod fillings;
mod laws;
mod said;
mod stage;

pub use fillings::Fillings;
pub use laws::volumes_hold_since_the_begin;
