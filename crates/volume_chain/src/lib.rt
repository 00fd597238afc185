//! The chain of volumes of an image: opening it.
#![tactic(auto)]

mod chain;
mod checking;
mod fresh;
pub mod laws;
mod layers;
mod opening;
mod parts;
mod stages;
mod subchain;
mod volumes;

pub use chain::Chain;
pub use opening::ChainOpening;
pub use subchain::Subchain;
pub use volumes::OpenVolume;
