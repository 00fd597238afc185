//! Decimal numbers as texts and scripts have them.
#![tactic(auto)]

mod laws;
mod reading;

pub use laws::numbers_read_back;
pub use reading::number;
