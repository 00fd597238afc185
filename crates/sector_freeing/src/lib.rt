//! The sectors of a domain that are held for a task where no task is open: the files of each one's image are synced, and the
//! sector is freed.
#![tactic(auto)]

mod finding;
mod freeing;
mod laws;
mod stages;

pub use freeing::{SectorFreeing, Stage};
pub use laws::{
    a_begun_freeing_knows_its_pool, a_freeing_ends_its_verb, freed_domains_leave_nothing,
    freeings_are_turns, freeings_keep_knowing,
};
