//! One host of a pool: what it keeps, which verb it runs, and one call of the disk at a time.
#![tactic(auto)]

mod bars;
mod begin;
mod clear;
mod down;
mod host;
pub mod laws;
mod leading;
mod progress;
mod step;
mod tasks;
mod work;

pub use host::Host;
pub use leading::Leading;
pub use progress::{Progress, Reply};
pub use work::Work;
