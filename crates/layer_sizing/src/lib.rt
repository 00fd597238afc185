//! A layer gets a larger capacity, so that a crash leaves the old size or the new one.
#![tactic(auto)]

mod heading;
mod laws;
mod raising;
mod sizes;
mod sizing;
mod zeroing;

pub use laws::sizings_stay_known;
pub use raising::{Part, Raising, Range, Stage};
pub use sizes::{bound, sized};
pub use sizing::Sizing;
