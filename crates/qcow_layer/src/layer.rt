// A layer that was opened.
ghost use Rattle.std.specs.Prelude.{◌≡◌, ◌<◌};

use crate::stages::Target;
use layer_walk::Work;
use qcow_format::Header;
use sd_names::{Id, Place};

/// A sound layer of a volume's image, as its file has it.
#[derive(Debug, Drop)]
pub struct Layer {
    pub(crate) target: Target,
    pub(crate) work: Work,
}

impl Layer {
    ghost use Rattle.qcow_layer.specs.Opening.{capacity_kept, header_kept, parent_kept, place_kept, volume_kept};
    ghost use Rattle.qcow_layer.specs.Knowing.{is_free, mapped};
    ghost use Rattle.qcow_layer.specs.Mapping.{HasSameGrid, IsLeastFree, IsTaken, IsWithCapacity, IsWithHeader};

    /// The volume whose layer it is.
    pub fn volume(&self) -> Id
        ensures { result ≡ volume_kept self.now }
    {
        self.target.volume
    }

    /// The place of its file.
    pub fn place(&self) -> Place
        ensures { result ≡ place_kept self.now }
    {
        self.target.place
    }

    /// The capacity of the volume, in bytes.
    pub fn capacity(&self) -> u64
        ensures { result ≡ capacity_kept self.now }
    {
        self.target.capacity
    }

    /// The header that the layer keeps.
    pub fn header(&self) -> &Header
        ensures { result.now ≡ header_kept self.now }
    {
        &self.work.header
    }

    /// The volume that the layer lies over: the identifier with which the backing file's name in that header ends. None
    /// where there is no backing file.
    pub fn parent(&self) -> Option<Id>
        ensures { result ≡ parent_kept self.now }
    {
        self.work.parent
    }

    /// How many clusters the layer's map has.
    pub fn mapped(&self) -> u64
        ensures { result ≡ mapped self.now }
    {
        self.work.marks.free.room()
    }

    /// Whether the map says that a cluster of the file is free. One that it doesn't have isn't.
    pub fn is_free(&self, cluster: u64) -> bool
        ensures { result ≡ is_free self.now cluster }
    {
        self.work.marks.free.has(cluster)
    }

    /// The least free cluster from `first` on below `end`.
    pub fn least_free(&self, first: u64, end: u64) -> Option<u64>
        ensures { IsLeastFree self.now first end result }
    {
        let end = end.min(self.mapped());
        for cluster in first..end {
            if self.is_free(cluster) {
                return Some(cluster);
            }
        }
        None
    }

    /// Says in the map that a cluster of the file isn't free. One that the map doesn't have never is.
    pub fn take(&mut self, cluster: u64)
        ensures { IsTaken self.old cluster self.new }
    {
        if cluster < self.mapped() {
            self.work.marks.free.remove(cluster);
        }
    }

    /// Says that the file has this header, which has the tables at the same places, and this parent.
    pub fn set_header(&mut self, header: Header, parent: Option<Id>)
        requires { HasSameGrid (header_kept self.old) header }
        ensures { IsWithHeader self.old header parent self.new }
    {
        self.work.header = header;
        self.work.parent = parent;
    }

    /// Says that the volume has this capacity, in bytes.
    pub fn set_capacity(&mut self, capacity: u64)
        ensures { IsWithCapacity self.old capacity self.new }
    {
        self.target.capacity = capacity;
    }
}
