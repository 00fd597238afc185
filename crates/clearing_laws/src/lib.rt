//! What a part's write keeps while a layer's header loses the features that a writer clears: laws as functions without code.
#![tactic(auto)]

mod laws;

pub use laws::{
    cleared_files_are_written, clearings_begin, clearings_keep_what_was_found, headers_find_alike,
};
