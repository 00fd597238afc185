// A layer whose header is known.
ghost use Rattle.std.specs.Prelude.{◌≡◌, ◌^◌, ◌%◌, ◌≤◌, ◌<◌};

use crate::marks::Marks;
use qcow_format::Header;
use sd_names::Id;

/// A layer whose header is known, with what was seen of its clusters so far.
#[derive(Debug, Drop)]
pub struct Work {
    pub header: Header,
    /// The identifier with which the backing file's name ends.
    pub parent: Option<Id>,
    pub marks: Marks,
    pub ghost low: { 12 ≤ header.cluster_bits },
    pub ghost high: { header.cluster_bits ≤ 21 },
    pub ghost few: { header.l1_size < 2 ^ 32 },
    pub ghost l1_aligned: { header.l1_table_offset % 2 ^ header.cluster_bits ≡ 0 },
    pub ghost table_aligned: { header.refcount_table_offset % 2 ^ header.cluster_bits ≡ 0 },
}
