//! Plain files of a folder, each kept open from its first call on, so that a flush goes through the descriptor that was
//! written.
#![tactic(auto)]

mod files;
mod flushed;
mod kept;
mod node;
mod open_files;
mod written;

pub use files::{answer_for, answer_for_new, create, shown_length};
pub use flushed::{Flush, FlushedDir, FlushedFile, flush_dir};
pub use kept::{Grown, Kept, State, Swapped};
pub use node::{Found, Node, look};
pub use open_files::OpenFiles;
pub use written::{Raised, Seen, Written, WrittenRange};
