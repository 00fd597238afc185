//! Which names and folders a folder of the store shows, and which of them comes next, from the names that the system gives.
#![tactic(auto)]

mod layout;
mod listing;

pub use layout::{is_below, read_dir, read_name};
pub use listing::{Entry, PIECE, least_above};
