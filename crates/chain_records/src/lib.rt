//! The records of an image's volumes: what they say of chains, why an image is refused, and what settling has to do.
//! Nothing here calls a disk.
#![tactic(auto)]

mod below;
mod checks;
mod found;
mod laws;
mod reading;
mod records;
mod rewriting;
mod settle;
mod subchain;
mod volume;
mod volume_list;

pub use found::FoundVolumes;
pub use laws::{
    paths_are_short, records_refuse_as_the_opening, settling_goes_by_volumes, settling_keeps_paths,
    settling_reads_alike,
};
pub use records::VolumeRecords;
pub use volume::Volume;
pub use volume_list::VolumeList;
