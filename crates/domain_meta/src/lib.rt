//! The text of a domain: reading it into a record, and writing it.
#![tactic(auto)]

mod checksum;
mod keys;
mod laws;
mod listed;
mod reading;
mod record;
mod values;
mod writing;

pub use laws::{domain_text_is_short, domain_text_reads_back};
pub use reading::read;
pub use record::DomainRecord;
pub use writing::write_into;
