//! What an image's volumes read as while bytes of one are committed to the volume below it: definitions, and laws as functions
//! without code.
#![tactic(auto)]

mod laws;

pub use laws::{
    commits_are_covered, commits_leave_other_volumes, committed_bytes_are_read, pieces_make_a_part,
};
