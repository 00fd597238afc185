//! What a chain knows while the layer of one of its volumes is written: laws as functions without code.
#![tactic(auto)]

mod laws;

pub use laws::{
    files_are_written, layers_are_written, lower_volumes_stay_known, writes_begin, writes_end,
};
