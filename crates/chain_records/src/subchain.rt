// Whether two volumes may be merged, by the records.
ghost use Rattle.std.specs.Prelude.{◌≡◌, ◌≢◌, List, None, Some, false, true, unwrap_or};
ghost use Rattle.sd_names.specs.Id.{zero_id};
ghost use Rattle.sd_names.specs.declared.id.Id.{Id as AnyId};
ghost use Rattle.sd_names.specs.declared.refusal.Refusal.TheVariants as refusal;
ghost use Rattle.volume_meta.specs.declared.record.VolumeRecord.{VolumeRecord as AnyRecord};
ghost use Rattle.chain_model.specs.Chain.{ComesToRing, IsBelow};
ghost use Rattle.chain_model.specs.Records.{is_legal};
ghost use Rattle.chain_model.specs.Up.{up_of};
ghost use Rattle.chain_records.specs.Records.{records_in};
ghost use Rattle.chain_records.specs.Settling.{IsOver};

use crate::records::VolumeRecords;
use sd_names::{Id, Refusal};

impl VolumeRecords {
    /// Why `top` can't be merged into `base`: a volume that isn't there (60, the base first), a parent of the top that
    /// counts and isn't the base (67, with the one that stands, zeros for none), a top that is ILLEGAL (64). None where
    /// it can.
    pub fn subchain_refusal(&self, base: &Id, top: &Id) -> Option<Refusal>
        ensures no_base { records_in self.now base.now ≡ None → result ≡ Some (refusal.NoVolume base.now) }
        ensures no_top { (x : AnyRecord) → records_in self.now base.now ≡ Some x
            → records_in self.now top.now ≡ None → result ≡ Some (refusal.NoVolume top.now) }
        ensures other { (x y : AnyRecord) (vs : List AnyId) → records_in self.now base.now ≡ Some x
            → records_in self.now top.now ≡ Some y
            → IsBelow (records_in self.now) top.now vs → up_of (records_in self.now) vs ≢ Some base.now
            → result ≡ Some (refusal.WrongParent top.now (unwrap_or (up_of (records_in self.now) vs) zero_id)) }
        ensures ringed { (x y : AnyRecord) → records_in self.now base.now ≡ Some x
            → records_in self.now top.now ≡ Some y
            → ComesToRing (records_in self.now) top.now → result ≡ Some (refusal.WrongParent top.now zero_id) }
        ensures illegal { (x : AnyRecord) → records_in self.now base.now ≡ Some x
            → IsOver (records_in self.now) top.now base.now
            → is_legal (records_in self.now) top.now ≡ false → result ≡ Some (refusal.VolumeIllegal top.now) }
        ensures none { (x : AnyRecord) → records_in self.now base.now ≡ Some x
            → IsOver (records_in self.now) top.now base.now
            → is_legal (records_in self.now) top.now ≡ true → result ≡ None }
    {
        if !self.has(base) {
            return Some(Refusal::NoVolume(*base));
        }
        if !self.has(top) {
            return Some(Refusal::NoVolume(*top));
        }
        if !self.is_over(top, base) {
            return Some(Refusal::WrongParent(*top, self.up_or_zero(top)));
        }
        if self.is_legal(top) {
            None
        } else {
            Some(Refusal::VolumeIllegal(*top))
        }
    }

    // The parent that counts, zeros standing for none.
    fn up_or_zero(&self, id: &Id) -> Id
        ensures ringed { ComesToRing (records_in self.now) id.now → result ≡ zero_id }
        ensures up { (vs : List AnyId) → IsBelow (records_in self.now) id.now vs
            → result ≡ unwrap_or (up_of (records_in self.now) vs) zero_id }
    {
        match self.up(id) {
            Some(up) => up,
            None => Id::ZERO,
        }
    }
}
