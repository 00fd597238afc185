// What can be wrong with a text of keys and values.
use sd_names::Key;

/// The first thing wrong with the lines, the keys or the values of a text.
#[derive(Clone, Copy, Debug, PartialEq, Eq)]
pub enum TextFault {
    /// The line of this number, from 1, has no `=`.
    BadLine(u32),
    /// The key isn't there.
    MissingKey(Key),
    /// The key's value isn't one that it may have.
    BadValue(Key),
}
