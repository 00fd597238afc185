// What settling has to change, by the records and by what headers name.
ghost use Rattle.std.specs.Prelude.{◌≡◌, ◌≢◌, ◌↔◌, IfNone, IfSome, IsTrue, None, Some, false, option_map, true};
ghost use Rattle.sd_names.specs.declared.id.Id.{Id as AnyId};
ghost use Rattle.sd_names.specs.declared.kinds.VolType.TheVariants.{Internal, Leaf};
ghost use Rattle.chain_model.specs.Records.{is_legal};
ghost use Rattle.chain_records.specs.Records.{records_in};
ghost use Rattle.chain_records.specs.Settling.{HasPassedParent, IsNamed, IsOver};

use crate::records::VolumeRecords;
use sd_names::{Id, VolType};

impl VolumeRecords {
    /// The parent of a volume that counts: the first volume below it that isn't passed over. None for a base, and where
    /// parents come to a ring.
    pub fn up(&self, id: &Id) -> Option<Id>
        ensures some { IfSome result (λ up. IsOver (records_in self.now) id.now up) }
        ensures none { IfNone result ((up : AnyId) → IsOver (records_in self.now) id.now up → ⊥) }
    {
        let Some(below) = self.below(id) else {
            return None;
        };
        self.first_that_counts(&below)
    }

    /// The parent to which a volume's record has to be rewritten: the one that counts, where the record names a volume
    /// that is passed over. None where the record stays.
    pub fn parent_to_write(&self, id: &Id) -> Option<Id>
        ensures some { IfSome result (λ up. IsOver (records_in self.now) id.now up) }
        ensures passed { IfSome result (λ _. HasPassedParent (records_in self.now) id.now) }
        ensures none { IfNone result (HasPassedParent (records_in self.now) id.now → (up : AnyId)
            → IsOver (records_in self.now) id.now up → ⊥) }
    {
        let Some(parent) = self.parent(id) else {
            return None;
        };
        if self.is_passed(&parent) {
            self.up(id)
        } else {
            None
        }
    }

    /// The volume that a layer's header has to be made to name: the parent that counts, where the header names another
    /// volume, or none. None where the header stays.
    pub fn header_to_write(&self, id: &Id, named: Option<Id>) -> Option<Id>
        ensures some { IfSome result (λ up. IsOver (records_in self.now) id.now up) }
        ensures other { IfSome result (λ up. named ≢ Some up) }
        ensures none { IfNone result ((up : AnyId) → IsOver (records_in self.now) id.now up → named ≡ Some up) }
    {
        let Some(up) = self.up(id) else {
            return None;
        };
        match named {
            Some(other) => { if other.is(&up) { None } else { Some(up) } }
            None => Some(up),
        }
    }

    /// Whether some volume names this one as its parent, once each volume names its parent that counts.
    pub fn is_named(&self, id: &Id) -> bool
        ensures { IsTrue result ↔ IsNamed (records_in self.now) id.now }
    {
        for volume in self.as_slice() {
            if self.is_over(&volume.id, id) {
                return true;
            }
        }
        false
    }

    /// Whether `up` is the parent of a volume that counts.
    pub fn is_over(&self, id: &Id, up: &Id) -> bool
        ensures { IsTrue result ↔ IsOver (records_in self.now) id.now up.now }
    {
        match self.up(id) {
            Some(found) => found.is(up),
            None => false,
        }
    }

    /// The VOLTYPE that a volume has once settled: LEAF for a LEGAL volume that no volume names, INTERNAL for any other
    /// LEGAL one, and its own for an ILLEGAL one. None where there is no such volume.
    pub fn voltype_to_have(&self, id: &Id) -> Option<VolType>
        ensures internal { is_legal (records_in self.now) id.now ≡ true → IsNamed (records_in self.now) id.now
            → result ≡ Some Internal }
        ensures leaf { is_legal (records_in self.now) id.now ≡ true → (IsNamed (records_in self.now) id.now → ⊥)
            → result ≡ Some Leaf }
        ensures kept { is_legal (records_in self.now) id.now ≡ false
            → result ≡ option_map (λ x. x.voltype) (records_in self.now id.now) }
    {
        if !self.is_legal(id) {
            return self.voltype(id);
        }
        if self.is_named(id) {
            Some(VolType::Internal)
        } else {
            Some(VolType::Leaf)
        }
    }

    // The VOLTYPE that a volume's record has.
    fn voltype(&self, id: &Id) -> Option<VolType>
        ensures { result ≡ option_map (λ x. x.voltype) (records_in self.now id.now) }
    {
        self.get(id).map(|record| record.voltype)
    }
}
