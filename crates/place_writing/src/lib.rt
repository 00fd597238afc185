//! A part's bytes written over a layer's clusters of data.
#![tactic(auto)]

mod places;

pub use places::PlaceWriting;
