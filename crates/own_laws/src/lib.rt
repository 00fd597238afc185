//! The sectors that the volume of a layer itself holds, once its layer's file was changed: laws as functions without code.
#![tactic(auto)]

mod laws;

pub use laws::{
    data_is_held_at_its_place, layers_with_the_same_bytes_hold_alike, linked_clusters_are_held,
    written_data_is_held,
};
