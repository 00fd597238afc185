//! A host becomes the manager of a pool: it takes the role, and recovers what another manager left.
#![tactic(auto)]

pub mod laws;
mod starting;

pub use starting::RoleStarting;
