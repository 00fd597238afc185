//! What an image's volumes mean together: definitions, and their laws as functions without code.
#![tactic(auto)]

mod chain;
mod growth;
mod opening;
mod sectors;

pub use chain::{
    chains_end_or_ring, first_that_counts, merged_volumes_are_passed, one_chain,
    one_reading_volume, other_names_say_nothing, stored_texts_are_read,
};
pub use growth::{longer_files_open_alike, longer_files_read_alike, longer_files_survive_alike};
pub use opening::{one_first_refusal, opened_images_are_whole, opened_without_refusal};
pub use sectors::{
    first_holder_is_read, headers_tell_the_path, own_sectors_have_own_bytes, sectors_read_alike,
    settled_headers_tell_the_chain,
};
