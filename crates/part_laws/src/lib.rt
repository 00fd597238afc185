//! How a part that is written over a layer's volume comes into the layer's file: laws as functions without code.
#![tactic(auto)]

mod laws;

pub use laws::{
    data_of_the_part_is_held, held_files_are_written, held_parts_stay_held, known_files_are_layers,
    linked_files_are_written, raw_files_are_written, volumes_hold_the_part,
    written_pieces_are_of_the_part,
};
