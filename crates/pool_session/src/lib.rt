//! A session: the lines of a script, run one after the other over a shared disk, and their replies.
#![tactic(auto)]

mod folders;
mod image;
mod machine;
mod program;
mod request;
mod session;
mod stage;

pub use program::vdsm;
