//! Tests of the texts of volumes and domains, and of the pairs that they are made of.
#![tactic(auto)]

#[cfg(test)]
mod domains;
#[cfg(test)]
mod pairs;
#[cfg(test)]
mod volumes;
