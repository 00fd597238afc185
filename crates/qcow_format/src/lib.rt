//! qcow2 headers, header extensions and table entries, read and written exactly.
#![tactic(auto)]

mod bytes;
mod entry;
mod extension;
mod format;
mod head;
mod header;
mod name;
mod shape;
mod writing;

pub use entry::{Entry, entries_read_again, entry_bits, entry_of, table_place};
pub use extension::{BACKING_FORMAT, Extension, Extensions};
pub use head::extensions;
pub use header::{Header, MAGIC, headers_read_again, numbers_of_the_standard};
pub use name::backing_id;

#[cfg(test)]
mod tests;
