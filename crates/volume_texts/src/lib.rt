//! The texts of volumes in an image's folder: each is replaced whole by that of a record, so that a crash leaves the old text
//! or the new one.
#![tactic(auto)]

mod laws;
mod write;

pub use laws::{
    read_records_are_legible, text_knowledge_survives_others, written_records_are_read,
};
pub use write::TextWrite;
