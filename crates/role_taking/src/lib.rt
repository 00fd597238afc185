//! The first part of `spm-start`, as the pool's machine has it: the role is taken, and the list of domains read.
#![tactic(auto)]

pub mod laws;
mod taking;

pub use taking::RoleTaking;
