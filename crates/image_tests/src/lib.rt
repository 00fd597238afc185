//! Tests of making an image's files, of removing them, and of creating and deleting an image under a task, over disks in memory.
#![tactic(auto)]

#[cfg(test)]
mod creating;
#[cfg(test)]
mod deleting;
#[cfg(test)]
mod making;
#[cfg(test)]
mod removing;
#[cfg(test)]
mod shared;
