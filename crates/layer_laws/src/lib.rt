//! What may change in a layer's file, and what stays of the layer: laws as functions without code.
#![tactic(auto)]

mod laws;

pub use laws::{
    allocate, cover, enter, frame, grown, keep_parent, link, overwrite, rebased, recount,
    recount_block, refill, resized, taller, uncounted_is_unnamed,
};
