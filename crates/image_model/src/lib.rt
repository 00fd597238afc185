//! What the files of an image mean: definitions, and their laws as functions without code.
#![tactic(auto)]

mod layer;

pub use layer::{
    longer_files_say_the_same, named_clusters_are_used, one_first_fault, one_wanted_length,
    sound_without_fault,
};
