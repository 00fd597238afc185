// What stands below a volume, and the path by which it reads.
ghost use Rattle.std.specs.Prelude.{◌≡◌, ◌≤◌, length, IfNone, IfSome, Contains};
ghost use Rattle.chain_model.specs.Chain.{ComesToRing, IsBelow, path_of};
ghost use Rattle.chain_model.specs.Up.{up_of};
ghost use Rattle.chain_records.specs.Records.{records_in};

use crate::records::VolumeRecords;
use crate::volume_list::VolumeList;
use sd_names::Id;

impl VolumeRecords {
    /// The volumes below a volume: its parent first, and last one that has none. There are none such where its parents
    /// come to a ring, as more steps along parents than there are volumes show.
    pub fn below(&self, id: &Id) -> Option<VolumeList>
        ensures some { IfSome result (λ vs. IsBelow (records_in self.now) id.now vs) }
        ensures few { IfSome result (λ vs. length vs ≤ length self.now) }
        ensures short { IfSome result (λ vs. length vs ≤ 32) }
        ensures none { IfNone result (ComesToRing (records_in self.now) id.now) }
    {
        let mut below = VolumeList::new();
        let mut last = *id;
        while let Some(parent) = self.parent(&last) {
            if below.len() == self.as_slice().len() {
                return None;
            }
            below.push(parent);
            last = parent;
        }
        Some(below)
    }

    /// The first of some volumes that isn't passed over: of those below a volume, its parent that counts.
    pub fn first_that_counts(&self, below: &VolumeList) -> Option<Id>
        ensures { result ≡ up_of (records_in self.now) below.now }
    {
        for id in below.as_slice() {
            if !self.is_passed(id) {
                return Some(*id);
            }
        }
        None
    }

    /// The path of a volume: it, and those below it that aren't passed over.
    pub fn path(&self, id: &Id, below: &VolumeList) -> VolumeList
        requires { length below.now ≤ 32 }
        ensures { result ≡ path_of (records_in self.now) id.now below.now }
    {
        let mut path = VolumeList::new();
        path.push(*id);
        for volume in below.as_slice() {
            if !self.is_passed(volume) {
                path.push(*volume);
            }
        }
        path
    }
}
