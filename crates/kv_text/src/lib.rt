//! Texts of keys and values, a pair on each line, read and written in place.
#![tactic(auto)]

mod fault;
mod id;
mod keys;
mod laws;
mod lines;
mod lookup;
mod pair;
mod split;
mod writer;

pub use fault::TextFault;
pub use id::read_own_id;
pub use keys::{description, needed, shape_fault, value};
pub use laws::{identifiers_read_back, written_pairs_read_back};
pub use lines::Lines;
pub use lookup::{first_bad_line, has_eof, value_of};
pub use pair::Pair;
pub use split::{first_line, split_once};
pub use writer::KvWriter;
