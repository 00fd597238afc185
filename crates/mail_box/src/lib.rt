//! The mailbox between the hosts that ask for a longer volume and the one that lengthens it: boxes of 64
//! slots, and the messages in them.
#![tactic(auto)]

mod mailbox;
mod message;
mod messages;

pub use mailbox::Mailbox;
pub use message::Message;
pub use messages::Messages;

#[cfg(test)]
mod tests;
