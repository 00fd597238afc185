//! Taking clusters of a layer's file for what is written: the least free ones are chosen, and counted.
#![tactic(auto)]

mod choosing;
mod clusters;
mod counting;
mod covering;
pub mod laws;
mod placing;
mod stage;

pub use choosing::choose;
pub use clusters::Clusters;
pub use placing::Placing;
