//! The open task of a pool, settled by the pool's manager: taken back, or brought to its end.
#![tactic(auto)]

mod ending;
mod laws;
mod settling;

pub use laws::{a_begun_settling_knows_its_pool, settlings_are_turns, settlings_keep_knowing};
pub use settling::{Stage, TaskSettling};
