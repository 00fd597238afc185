//! The loop of a script: its input is cut into lines, each is run by a machine as it comes, and its reply is given.
#![tactic(auto)]

mod give;
mod line;
mod memory;
mod run;
mod runner;
mod script;
mod session;
mod status;
mod stream;
mod tally;
#[cfg(test)]
mod tests;

pub use memory::{MemorySink, MemorySource};
pub use run::{Ended, Room, run_script};
pub use runner::{LineOutcome, LineRunner};
pub use script::Script;
pub use status::Status;
pub use stream::{Sink, Source};
