// A sector that is kept, with its key.

/// A sector's owner, its file's number and its own number in the file.
pub(crate) type Key = (u8, usize, u64);

/// A sector that is kept.
#[derive(Clone, Copy)]
pub(crate) struct Cell {
    pub(crate) key: Key,
    pub(crate) bytes: [u8; 512],
}
