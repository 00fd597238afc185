// The clusters of a file that weren't named so far; once the counts are known, those that aren't used.
ghost use Rattle.std.specs.Prelude.{◌≡◌, ◌<◌, ◌≤◌, ◌*◌, ◌%◌, ◌^◌};
ghost use Rattle.layer_walk.specs.Bits.{room_of};

use crate::bits::Bits;
use crate::item::Item;
use sd_names::{LayerFault, NoMemory};
use std::alloc::Global;

/// The clusters of a file, one bit each.
///
/// Where nothing is noted, a cluster is free until it is named, and after its count is looked at, unless it is used. Where
/// a cluster was found that is named and has the count 0, the clusters that aren't free are those that are so.
#[derive(Debug, Drop)]
pub struct Marks {
    /// The file's size and that of its clusters, in bytes.
    pub size: u64,
    pub cluster: u64,
    pub free: Bits,
    /// The place of a cluster that is named and has the count 0.
    pub noted: Option<u64>,
    pub ghost some: { 4096 ≤ cluster },
    pub ghost fits: { size < 2 ^ 64 },
    pub ghost room: { size ≤ room_of free * cluster },
    pub ghost whole: { room_of free % 256 ≡ 0 },
}

impl Marks {
    ghost use Rattle.layer_walk.specs.Items.{item_of};
    ghost use Rattle.std.specs.Prelude.{None, IfOk, Some};
    ghost use Rattle.image_model.specs.Soundness.{named_by};
    ghost use Rattle.layer_walk.specs.Checked.{low_name};
    ghost use Rattle.layer_walk.specs.Marks.{Admits, IsNew, free_by};

    /// All clusters are free, of a file of this size, with clusters of this size. There is room for those of a file of
    /// `roof` bytes too.
    pub fn new(alloc: Global, size: u64, cluster: u64, roof: u64) -> Result<Marks, NoMemory>
        requires { 4096 ≤ cluster }
        ensures { IfOk result (λ m. IsNew size cluster roof m) }
    {
        let clusters = size.max(roof).div_ceil(cluster);
        let free = Bits::full(alloc, clusters.div_ceil(256) * 256)?;
        Ok(Marks {
            size,
            cluster,
            free,
            noted: None,
        })
    }

    // A name at a place of the file, where a cluster is noted: whether it is one that has the count 0.
    fn find_name(&self, place: u64) -> Option<LayerFault>
        ensures { result ≡ low_name self.now.size self.now.cluster (free_by self.now) (Some place) }
    {
        if place < self.size && !self.free.has(place / self.cluster) {
            return Some(LayerFault::LowRefcount(place));
        }
        None
    }

    // A name at a place of the file, where none is noted.
    fn admit_name(&mut self, at: u64, place: u64) -> Option<LayerFault>
        requires { self.old.noted ≡ None }
        ensures { Admits self.old self.new (named_by at place) result }
    {
        if place >= self.size {
            return Some(LayerFault::OutOfFile(at));
        }
        let cluster = place / self.cluster;
        if !self.free.has(cluster) {
            return Some(LayerFault::Shared(place));
        }
        self.free.remove(cluster);
        None
    }

    /// The item of the next position is admitted, or it is told what is wrong with it: by itself, or that its cluster was
    /// named before. Where a cluster is noted, all that can be wrong is that the item's cluster has the count 0.
    pub fn admit(&mut self, item: &Item) -> Option<LayerFault>
        ensures { Admits self.old self.new (item_of item.now) result }
    {
        let Some(place) = item.name else {
            if self.noted.is_some() {
                return None;
            }
            return item.wrong;
        };
        if self.noted.is_some() {
            return self.find_name(place);
        }
        if item.wrong.is_some() {
            return item.wrong;
        }
        self.admit_name(item.at, place)
    }
}
