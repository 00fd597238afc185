// The records of an image's volumes, in the order in which they were put in.
ghost use Rattle.std.specs.Prelude.{◌≡◌, ◌↔◌, ◌<◌, ◌≤◌, ◌++◌, [], ◌∷◌, length, is_some, option_copied, slice_get, slice_set, Some, IfOk, IsTrue};
ghost use Rattle.chain_model.specs.Records.{is_legal, is_passed, legal_in, parent, parent_in, passed_in};
ghost use Rattle.chain_records.specs.declared.volume.Volume.{Volume as AnyVolume};
ghost use Rattle.chain_records.specs.Records.{records_in};
ghost use Rattle.chain_records.specs.Rewriting.{naming, typed, with_meta};

use crate::volume::Volume;
use sd_names::{Id, Legality, NoMemory, VolType};
use std::alloc::Global;
use std::marker::Model;
use volume_meta::VolumeRecord;

// How many volumes an image has at most.
const MOST: usize = 32;

/// The volumes of an image with their records, at most 32. They are put in in order of their identifiers, in which
/// every check goes over them. A contract sees the list, and by `records_in` which record each volume has.
#[derive(Debug, Drop)]
pub struct VolumeRecords {
    volumes: Vec<Volume>,
}

impl Model for VolumeRecords {
    ghost use Rattle.std.specs.Prelude.{List, ◌≤◌, vec_len, vec_capacity};
    ghost use Rattle.chain_records.specs.declared.volume.Volume.{Volume};

    ghost Value = { List Volume };

    ghost view = { λ r. r.volumes.items };

    ghost invariant = { λ r. (vec_len r.volumes ≤ 32) × (32 ≤ vec_capacity r.volumes) };
}

impl VolumeRecords {
    /// No volumes, with room for 32.
    pub fn new(alloc: Global) -> Result<VolumeRecords, NoMemory>
        ensures { IfOk result (λ r. r ≡ []) }
    {
        match Vec::with_capacity(alloc, MOST) {
            Ok(volumes) => Ok(VolumeRecords { volumes }),
            Err(_) => Err(NoMemory),
        }
    }

    /// Puts a volume behind the others. It takes no memory.
    pub fn push(&mut self, volume: Volume)
        requires { length self.old < 32 }
        ensures { self.new ≡ self.old ++ volume ∷ [] }
    {
        self.volumes.push_reserved(volume)
    }

    /// The volumes, lent.
    pub fn as_slice(&self) -> &[Volume]
        ensures list { result.now ≡ self.now }
        ensures few { length result.now ≤ 32 }
    {
        &self.volumes
    }

    // Lets the volume at a place name this parent.
    pub(crate) fn put_parent(&mut self, at: usize, parent: Id)
        requires { at < length self.old }
        ensures { (x : AnyVolume) → slice_get self.old at ≡ Some x
            → self.new ≡ slice_set self.old at (with_meta (naming parent) x) }
    {
        let volume = &mut self.volumes[at];
        volume.meta.parent = parent;
    }

    // Gives the volume at a place this VOLTYPE.
    pub(crate) fn put_voltype(&mut self, at: usize, voltype: VolType)
        requires { at < length self.old }
        ensures { (x : AnyVolume) → slice_get self.old at ≡ Some x
            → self.new ≡ slice_set self.old at (with_meta (typed voltype) x) }
    {
        let volume = &mut self.volumes[at];
        volume.meta.voltype = voltype;
    }

    /// The record of a volume.
    pub fn get(&self, id: &Id) -> Option<&VolumeRecord>
        ensures { option_copied result ≡ records_in self.now id.now }
    {
        for volume in self.as_slice() {
            if volume.id.is(id) {
                return Some(&volume.meta);
            }
        }
        None
    }

    /// Whether there is such a volume.
    pub fn has(&self, id: &Id) -> bool
        ensures { result ≡ is_some (records_in self.now id.now) }
    {
        self.get(id).is_some()
    }

    /// How many volumes there are.
    pub fn len(&self) -> usize
        ensures { result ≡ length self.now }
    {
        self.volumes.len()
    }

    /// Whether there are none.
    pub fn is_empty(&self) -> bool
        ensures { IsTrue result ↔ (self.now ≡ []) }
    {
        self.volumes.is_empty()
    }

    /// The volume that a volume's record names as its parent: none where it names zeros.
    pub fn parent(&self, id: &Id) -> Option<Id>
        ensures { result ≡ parent (records_in self.now) id.now }
    {
        match self.get(id) {
            Some(record) => parent_of(record),
            None => None,
        }
    }

    /// Whether a volume is LEGAL.
    pub fn is_legal(&self, id: &Id) -> bool
        ensures { result ≡ is_legal (records_in self.now) id.now }
    {
        match self.get(id) {
            Some(record) => is_legal_record(record),
            None => false,
        }
    }

    /// Whether chains pass over a volume: it is ILLEGAL and merged and has a parent.
    pub fn is_passed(&self, id: &Id) -> bool
        ensures { result ≡ is_passed (records_in self.now) id.now }
    {
        match self.get(id) {
            Some(record) => is_passed_record(record),
            None => false,
        }
    }
}

// The parent that a record names.
fn parent_of(volume: &VolumeRecord) -> Option<Id>
    ensures { result ≡ parent_in volume.now }
{
    if volume.parent.is_zero() {
        None
    } else {
        Some(volume.parent)
    }
}

fn is_legal_record(volume: &VolumeRecord) -> bool
    ensures { result ≡ legal_in volume.now }
{
    match volume.legality {
        Legality::Legal => true,
        Legality::Illegal => false,
    }
}

fn is_passed_record(volume: &VolumeRecord) -> bool
    ensures { result ≡ passed_in volume.now }
{
    !is_legal_record(volume) && volume.merged && parent_of(volume).is_some()
}
