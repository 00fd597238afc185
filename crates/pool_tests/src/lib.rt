//! Tests of making a pool, of its manager's role, its taking and the listing of tasks, and of its hosts, over disks in memory.
#![tactic(auto)]

#[cfg(test)]
mod host;
#[cfg(test)]
mod listing;
#[cfg(test)]
mod making;
#[cfg(test)]
mod role;
#[cfg(test)]
mod shared;
#[cfg(test)]
mod taking;
