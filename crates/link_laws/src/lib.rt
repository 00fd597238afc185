//! What stays of a sound layer when several entries of one sector of an L2 table become data at once: laws as functions
//! without code.
#![tactic(auto)]

mod laws;

pub use laws::{enter_many, link_filled};
