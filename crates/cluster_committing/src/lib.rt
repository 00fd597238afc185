//! A cluster that a layer holds goes into the volume below it.
#![tactic(auto)]

mod commit;
mod stage;
mod stages;

pub use commit::CommitCluster;
