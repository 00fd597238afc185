//! A guest's write of a part to a raw volume of an open chain.
#![tactic(auto)]

pub mod laws;
mod writing;

pub use writing::RawWriting;
