//! Shared folders in memory: disks that keep to the trait of a shared disk, with room for a fixed count of units.
#![tactic(auto)]

mod cell;
mod counts;
mod entry;
mod failing;
mod files;
mod honest;
mod in_memory;
mod listing;
mod log;
mod memory;
mod picks;
mod sector_map;
mod store;

pub use failing::{FailingCalls, ListedCalls, NoCalls};
pub use honest::Honest;
pub use in_memory::InMemory;
pub use memory::Memory;
pub use picks::Pick;

#[cfg(test)]
mod tests;
