//! Tests of whole scripts over disks in memory.
#![tactic(auto)]

#[cfg(test)]
mod sessions;
