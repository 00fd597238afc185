//! The words after the program's name: which command they ask for, and its values.
#![tactic(auto)]

mod command;
mod matched;
mod plain;
mod table;
#[cfg(test)]
mod tests;

pub use command::{Command, read_words};
