//! What an image's volumes read as while a part is laid over one of them: definitions, and laws as functions without code.
#![tactic(auto)]

mod laws;

pub use laws::{
    changed_files_are_written, outcomes_come_from_outcomes, parts_are_read, reads_stay_mixed,
    writes_go_on,
};
