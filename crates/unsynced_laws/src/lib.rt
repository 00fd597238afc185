//! Whose unsynced writes a call of the disk leaves: a definition, and laws as functions without code.
#![tactic(auto)]

mod laws;

pub use laws::{
    calls_leave_only_theirs, crashes_leave_other_files, crashes_leave_the_others,
    folders_have_none, reads_leave_all, replacements_leave_only_theirs,
};
