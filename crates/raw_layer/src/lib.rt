//! Raw volumes: a file that holds a volume's bytes one after the other, and zeros past its end.
#![tactic(auto)]

pub mod laws;
mod raw;
mod read;
mod write;

pub use raw::Raw;
pub use read::RawRead;
pub use write::RawWrite;
