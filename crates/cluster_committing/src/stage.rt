// How far the commit of a cluster is.
use commit_reading::{CommitReading, Pieces};
use guest_writing::GuestWrite;

/// How far it is.
#[derive(Drop)]
pub(crate) enum Stage {
    /// The cluster is looked up in the top, and its next piece is read.
    Reading(CommitReading),
    /// The next piece of these, which the part has, is written to the base.
    Writing(Pieces, GuestWrite),
}
