//! The pool that the hosts' disk stands for, and the machine that says what hosts may do to it: definitions, and their
//! laws as functions without code.
#![tactic(auto)]

mod laws;

pub use laws::{
    booting_leaves_disks_standing, disks_stand_for_one_pool, empty_disks_stand,
    flat_lists_are_read_through_chains, guests_are_alone, guests_keep_their_images,
    images_stand_alone, made_images_are_meant, made_pools_stand, nothing_is_unsynced_without_hosts,
    one_volume_is_read, standing_disks_are_kept,
};
