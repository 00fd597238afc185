//! Tests of an image's volumes, as tables: of their records, and of their files over disks in memory.
#![tactic(auto)]

#[cfg(test)]
mod gathering;
#[cfg(test)]
mod images;
#[cfg(test)]
mod opening;
#[cfg(test)]
mod reading;
#[cfg(test)]
mod refusals;
#[cfg(test)]
mod settling;
