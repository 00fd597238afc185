// Why an image is refused by its records.
ghost use Rattle.std.specs.Prelude.{◌≡◌, ◌↔◌, [], ◌∷◌, IfNone, IfSome, IsTrue, Option, map, option_map};
ghost use Rattle.sd_names.specs.declared.id.Id.{Id as AnyId};
ghost use Rattle.sd_names.specs.declared.fault.Key.TheVariants as key;
ghost use Rattle.sd_names.specs.declared.fault.VolumeFault.TheVariants as fault;
ghost use Rattle.sd_names.specs.declared.refusal.Refusal.TheVariants as refusal;
ghost use Rattle.chain_model.specs.Chain.{HasRing};
ghost use Rattle.chain_model.specs.Opening.{IsRawAbove, IsTooSmall, both, capacity, format, parents};
ghost use Rattle.chain_records.specs.Checks.{FirstIs, IsUnknownParent, record_checks};
ghost use Rattle.chain_records.specs.Paths.{IsSmaller, capacity_in};
ghost use Rattle.chain_records.specs.Records.{first_missing, ids_of, records_in};

use crate::records::VolumeRecords;
use sd_names::{Format, Id, Key, Refusal, VolumeFault};

impl VolumeRecords {
    /// The refusal of the first volume of the list whose file isn't there (60). None where each file is.
    pub fn missing_file(&self) -> Option<Refusal>
        ensures { result ≡ option_map (λ v. refusal.NoVolume v) (first_missing self.now) }
    {
        for volume in self.as_slice() {
            if !volume.has_file {
                return Some(Refusal::NoVolume(volume.id));
            }
        }
        None
    }

    /// The refusal of the first check of the records that refuses, volume by volume in the order of the list: each
    /// parent is a volume (67, with the volume and the parent); the parents form no ring (68 with 0); a RAW volume has
    /// no parent, and none that a LEGAL one reads through is smaller than its parent that counts (65, with FORMAT or
    /// CAP); there is a reading volume (57). None where each check passes.
    pub fn first_refusal(&self) -> Option<Refusal>
        ensures { FirstIs (records_in self.now) (record_checks (ids_of self.now)) result }
    {
        if let Some(refusal) = self.first_unknown_parent() {
            return Some(refusal);
        }
        if self.has_ring() {
            return Some(Refusal::ChainTooLong(0));
        }
        if let Some(refusal) = self.first_bad_value() {
            return Some(refusal);
        }
        match self.reading_path() {
            Some(_) => None,
            None => Some(Refusal::NoReadingVolume),
        }
    }

    // The first parent that is no volume of the list.
    fn first_unknown_parent(&self) -> Option<Refusal>
        ensures { FirstIs (records_in self.now) (map parents (ids_of self.now)) result }
    {
        for volume in self.as_slice() {
            if let Some(parent) = self.unknown_parent(&volume.id) {
                return Some(Refusal::WrongParent(volume.id, parent));
            }
        }
        None
    }

    // A volume's parent, if that is no volume of the list.
    fn unknown_parent(&self, id: &Id) -> Option<Id>
        ensures some { IfSome result (IsUnknownParent (records_in self.now) id.now) }
        ensures none { IfNone result ((p : AnyId) → IsUnknownParent (records_in self.now) id.now p → ⊥) }
    {
        let parent = self.parent(id)?;
        if self.has(&parent) {
            None
        } else {
            Some(parent)
        }
    }

    // Whether parents form a ring: the parents of some volume don't end.
    fn has_ring(&self) -> bool
        ensures { IsTrue result ↔ HasRing (records_in self.now) }
    {
        for volume in self.as_slice() {
            if self.below(&volume.id).is_none() {
                return true;
            }
        }
        false
    }

    // The first value that a volume may not have in its place.
    fn first_bad_value(&self) -> Option<Refusal>
        ensures { FirstIs (records_in self.now) (both format capacity (ids_of self.now)) result }
    {
        for volume in self.as_slice() {
            if let Some(refusal) = self.bad_value(&volume.id) {
                return Some(refusal);
            }
        }
        None
    }

    fn bad_value(&self, id: &Id) -> Option<Refusal>
        ensures { FirstIs (records_in self.now) (format id.now ∷ capacity id.now ∷ []) result }
    {
        if self.is_raw_above(id) {
            let fault = VolumeFault::BadValue(Key::Format);
            return Some(Refusal::MetaCorrupt(*id, fault));
        }
        if self.is_too_small(id) {
            let fault = VolumeFault::BadValue(Key::Cap);
            return Some(Refusal::MetaCorrupt(*id, fault));
        }
        None
    }

    // Whether a volume is RAW and has a parent.
    fn is_raw_above(&self, id: &Id) -> bool
        ensures { IsTrue result ↔ IsRawAbove (records_in self.now) id.now (refusal.MetaCorrupt id.now
            (fault.BadValue key.Format)) }
    {
        match self.get(id) {
            Some(record) => record.format == Format::Raw && self.parent(id).is_some(),
            None => false,
        }
    }

    // The capacity of a volume, in bytes.
    fn capacity(&self, id: &Id) -> Option<u64>
        ensures { result ≡ capacity_in (records_in self.now) id.now }
    {
        self.get(id).map(|record| record.capacity)
    }

    // Whether a LEGAL volume reads through a volume that is smaller than its parent that counts.
    fn is_too_small(&self, id: &Id) -> bool
        ensures { IsTrue result ↔ IsTooSmall (records_in self.now) id.now (refusal.MetaCorrupt id.now
            (fault.BadValue key.Cap)) }
    {
        self.is_smaller(id) && self.is_used(id)
    }

    // Whether a volume is smaller than its parent that counts.
    fn is_smaller(&self, id: &Id) -> bool
        ensures { IsTrue result ↔ IsSmaller (records_in self.now) id.now }
    {
        let Some(below) = self.below(id) else {
            return false;
        };
        let Some(up) = self.first_that_counts(&below) else {
            return false;
        };
        let Some(own) = self.capacity(id) else {
            return false;
        };
        let Some(other) = self.capacity(&up) else {
            return false;
        };
        own < other
    }
}
