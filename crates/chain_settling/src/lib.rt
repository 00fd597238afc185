//! The settling of an image that was opened: what cut verbs left is removed or finished, so that texts and headers tell the
//! image's chain.
#![tactic(auto)]

mod headers;
mod laws;
mod lengths;
mod reopening;
mod settling;
mod stages;
mod texts;

pub use laws::{
    known_settlings_stay_known, open_chains_are_known, openings_and_settlings_are_short,
    settled_chains_are_known, settling_survives_crashes, settlings_are_short,
};
pub use reopening::{cut_settlings_open_again, settled_chains_are_open};
pub use settling::Settling;
