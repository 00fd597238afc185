// What says that a call did its work.
use crate::names::Changed;
use kept_files::{FlushedDir, FlushedFile, WrittenRange};

/// What says that the last call which changed something has done so. Each is made only by what it tells of.
#[derive(Clone, Copy)]
pub(crate) enum Done {
    /// No call has changed anything.
    Nothing,
    /// Bytes were written.
    Bytes(WrittenRange),
    /// A file was flushed.
    File(FlushedFile),
    /// Names were changed, and their folder was flushed.
    Names(Changed, FlushedDir),
}
