//! What another manager left of a pool is recovered by its manager: the tasks are listed, and the open one is settled.
#![tactic(auto)]

pub mod laws;
mod recovering;

pub use recovering::PoolRecovery;
