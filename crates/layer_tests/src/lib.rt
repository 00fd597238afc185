//! Tests of layers over disks in memory.
#![tactic(auto)]

#[cfg(test)]
mod layers;
