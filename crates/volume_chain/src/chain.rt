// The chain of an image: its records, and the open volumes of the path.
ghost use Rattle.std.specs.Prelude.{◌≡◌, ◌↔◌, ◌<◌, List, IfSome, IsTrue, length, option_copied, slice_get, Some};
ghost use Rattle.std.specs.Borrow.{sem};
ghost use Rattle.sd_names.specs.declared.id.Id.{Id as AnyId};
ghost use Rattle.chain_model.specs.Chain.{IsBelow};
ghost use Rattle.chain_records.specs.Records.{records_in};
ghost use Rattle.volume_chain.specs.Chain.{IsExpected, capacity_of, dir_in, kind_of, next_of, open_in, opened, path_in, place_in, reading_in, records_kept, target_of};
ghost use Rattle.volume_chain.specs.Layers.{IsLayerAt};
ghost use Rattle.volume_chain.specs.LendingChain.{LendsLayerAt};
ghost use Rattle.volume_chain.specs.declared.volumes.OpenVolume.TheVariants.{Cow};

use crate::volumes::{OpenVolume, OpenVolumes};
use chain_records::{VolumeList, VolumeRecords};
use qcow_layer::Layer;
use sd_names::{Dir, Format, Id, Name, Place};
use volume_meta::VolumeRecord;

/// Which image it is, in which domain, and the version by which its texts are read.
#[derive(Clone, Copy, Debug)]
pub(crate) struct Target {
    pub(crate) sd: Id,
    pub(crate) image: Id,
    pub(crate) version: u8,
}

/// The greatest capacity that a volume can get while it is open, in bytes: 1 TiB, as the store bounds it.
pub(crate) const GREATEST: u64 = 1_099_511_627_776;

// How a volume is opened: by its file's length, or as a layer, with its capacity in bytes.
#[derive(Clone, Copy, Debug)]
pub(crate) enum Kind {
    Raw(Id),
    Cow(Id, u64),
}

/// The chain of an image that is open: what the texts of its volumes say, and each volume of the path by which guests
/// read, from the reading volume to its base, with its file's length or its layer.
#[derive(Drop)]
pub struct Chain {
    pub(crate) target: Target,
    pub(crate) records: VolumeRecords,
    pub(crate) path: VolumeList,
    pub(crate) volumes: OpenVolumes,
}

impl Chain {
    /// The volume that guests read and write: the first of the path. None for a path without volumes, which no chain has.
    pub fn reading(&self) -> Option<Id>
        ensures { result ≡ reading_in self.now }
    {
        match self.path.as_slice().get(0) {
            Some(id) => Some(*id),
            None => None,
        }
    }

    /// The image's domain.
    pub fn sd(&self) -> Id
        ensures { result ≡ (target_of self.now).sd }
    {
        self.target.sd
    }

    /// The image.
    pub fn image(&self) -> Id
        ensures { result ≡ (target_of self.now).image }
    {
        self.target.image
    }

    /// The capacity of the reading volume, in bytes, as its text says. None for a path without volumes, which no chain has.
    pub fn capacity(&self) -> Option<u64>
        ensures { result ≡ capacity_of self.now }
    {
        let id = self.reading()?;
        let record = self.records.get(&id)?;
        Some(record.capacity)
    }

    /// What the text of a volume says.
    pub fn volume(&self, id: &Id) -> Option<&VolumeRecord>
        ensures { option_copied result ≡ records_in (records_kept self.now) id.now }
    {
        self.records.get(id)
    }

    /// The volumes of the path, from the reading volume to its base.
    pub fn path(&self) -> &[Id]
        ensures { result.now ≡ path_in self.now }
    {
        self.path.as_slice()
    }

    /// The open volumes of the path, in its order.
    pub fn volumes(&self) -> &[OpenVolume]
        ensures { result.now ≡ open_in self.now }
    {
        self.volumes.as_slice()
    }

    /// The layer of the volume of the path with this index, lent to be changed: all else stays as it was.
    pub fn layer_mut(&mut self, index: usize) -> &mut Layer
        requires { IsLayerAt (open_in self.old) index }
        ensures* writes { sem 𝓛 (LendsLayerAt self.entry index result) }
        ensures value { slice_get (open_in self.old) index ≡ Some (Cow result.now) }
    {
        self.volumes.layer_mut(index)
    }

    // The image's folder.
    fn dir(&self) -> Dir
        ensures { result ≡ dir_in self.now.target }
    {
        Dir::Image(self.target.sd, self.target.image)
    }

    /// The place of a volume's file.
    pub fn place(&self, id: &Id) -> Place
        ensures { result ≡ place_in (target_of self.now) id.now }
    {
        Place {
            dir: self.dir(),
            name: Name::Volume(*id),
        }
    }

    // The first volume of the path that isn't open yet.
    pub(crate) fn next(&self) -> Option<Id>
        ensures is { result ≡ next_of self.now }
        ensures room { IfSome result (λ _. length (open_in self.now) < 33) }
    {
        let volumes = self.volumes.as_slice().len();
        match self.path.as_slice().get(volumes) {
            Some(id) => Some(*id),
            None => None,
        }
    }

    // That volume, and how it is opened by its record. None where none is left.
    pub(crate) fn next_kind(&self) -> Option<Kind>
        ensures { result ≡ kind_of (records_in (records_kept self.now)) (next_of self.now) }
    {
        let Some(id) = self.next() else {
            return None;
        };
        let Some(record) = self.records.get(&id) else {
            return None;
        };
        match record.format {
            Format::Raw => Some(Kind::Raw(id)),
            Format::Cow => Some(Kind::Cow(id, record.capacity)),
        }
    }

    // Opens the next volume of the path, if there is one.
    pub(crate) fn push(self, volume: OpenVolume) -> Chain
        ensures { result ≡ opened self volume }
    {
        match self.next() {
            None => self,
            Some(_) => {
                let mut chain = self;
                chain.volumes.push(volume);
                chain
            }
        }
    }

    // Whether the header of a volume's layer may name this one, zeros standing for none: the parent, or the one that counts.
    pub(crate) fn is_expected(&self, id: &Id, named: &Id) -> bool
        ensures { (vs : List AnyId) → IsBelow (records_in (records_kept self.now)) id.now vs
            → IsTrue result ↔ IsExpected (records_in (records_kept self.now)) id.now vs named.now }
    {
        let Some(record) = self.records.get(id) else {
            return false;
        };
        if named.is(&record.parent) {
            return true;
        }
        match self.records.up(id) {
            Some(up) => named.is(&up),
            None => named.is_zero(),
        }
    }
}
