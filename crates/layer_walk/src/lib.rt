//! The walk over a layer's tables, without a disk: what is wanted next, and what a sector tells.
#![tactic(auto)]

mod ask;
mod begin;
mod bits;
mod count;
mod counted;
mod counting;
mod finish;
mod head;
mod item;
pub mod laws;
mod lookup;
mod marks;
mod rows;
mod sector;
mod step;
mod tables;
mod walk;
mod work;

pub use begin::begin_walk;
pub use bits::Bits;
pub use count::{Count, Spot};
pub use item::cluster_bytes;
pub use marks::Marks;
pub use sector::{half_at, word_at};
pub use step::{take, wanted};
pub use walk::{Ask, Block, Passed, Table, Then, Walk};
pub use work::Work;
