//! The lines of a script, and the replies to them: pure functions on bytes that take no memory.
#![tactic(auto)]

mod arguments;
mod data;
mod event;
mod laws;
mod line;
mod places;
mod printed;
mod reply;
mod values;
mod verb_names;
mod verbs;
mod words;

pub use data::{MAX_DATA, decode};
pub use event::{Line, event_of};
pub use laws::{printed_data_reads_again, spelled_events_read_again};
pub use line::{MAX_LINE, Said, read_line};
pub use printed::push_data;
pub use reply::{REPLY_ROOM, Reply, push_reply};
pub use verb_names::{VerbWord, verb_word};
pub use words::take_word;
