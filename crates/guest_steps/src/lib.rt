//! Steps of a guest's write to a layer, made with the open chain that has it.
#![tactic(auto)]

mod laws;
mod linking;
mod preparing;

pub use laws::room_is_short_or_found;
pub use linking::link;
pub use preparing::prepare;
