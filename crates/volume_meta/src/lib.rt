//! The text beside a volume: reading it into a record, and writing it, in both versions.
#![tactic(auto)]

mod keys;
mod laws;
mod reading;
mod record;
mod values;
mod writing;

pub use laws::{volume_text_is_short, volume_text_reads_back};
pub use reading::read;
pub use record::{VolumeRecord, next_generation};
pub use writing::write_into;
