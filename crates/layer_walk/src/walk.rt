// How far the walk over a layer's tables is.
use crate::count::Count;
use crate::work::Work;
use sd_names::LayerFault;

/// A refcount block: the index of the refcount table's entry that names it, and its place in bytes.
#[derive(Clone, Copy, Debug)]
pub struct Block {
    pub index: u64,
    pub place: u64,
}

/// An L2 table: the index of the L1 entry that names it, and its place in bytes.
#[derive(Clone, Copy, Debug)]
pub struct Table {
    pub index: u32,
    pub place: u64,
}

/// What comes where a cluster that was asked about has a count.
#[derive(Clone, Copy, Debug)]
pub enum Then {
    /// The cluster is the refcount block of this entry: the entries behind it, in the sector of the refcount table.
    Entries(u64, [u8; 512]),
    /// The cluster is the one with this index of those that the header names: the next below an end, then this fault.
    Head(u64, u64, LayerFault),
}

/// The count of the cluster at a place is asked: first the place of its refcount block, then the count in the block.
#[derive(Clone, Copy, Debug)]
pub struct Ask {
    pub place: u64,
    pub block: Option<u64>,
    pub then: Then,
}

/// What is known of a layer whose header is known. Each wants one sector of the file next.
#[derive(Debug, Drop)]
pub enum Walk {
    /// What the header names is fine, and the refcount table's entries below an index, whose blocks have a count. The
    /// index is that of a sector's first entry.
    Blocks(Work, u64),
    /// The count of a cluster is asked.
    Ask(Work, Ask),
    /// The refcount table is fine, and the L1 entries below an index, with the tables that they name.
    L1(Work, u32),
    /// So is an L1 entry, and the entries below an index in the table at a place, which it names; the sector of the L1
    /// table that has the entry.
    L2(Work, u32, u64, u32, [u8; 512]),
    /// The tables have this fault, or none, where no count is looked at; and how far the counts are.
    Counts(Work, Option<LayerFault>, Count),
}

/// What comes of a sector.
#[derive(Debug, Drop)]
pub enum Passed {
    /// The walk goes on.
    More(Walk),
    /// The layer is sound.
    Sound(Work),
    /// This is its first fault.
    Fault(LayerFault),
}
