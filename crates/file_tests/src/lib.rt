//! Tests of what stands on one file, over disks in memory: raw volumes, small texts, files of tasks and leases.
#![tactic(auto)]

#[cfg(test)]
mod leases;
#[cfg(test)]
mod raw;
#[cfg(test)]
mod tasks;
#[cfg(test)]
mod texts;
