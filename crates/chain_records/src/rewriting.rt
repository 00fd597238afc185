// Records that are rewritten in memory, as their texts are.
ghost use Rattle.std.specs.Prelude.{◌≡◌, ◌<◌, IfNone, IfSome, None, length};
ghost use Rattle.sd_names.specs.declared.id.Id.{Id as AnyId};
ghost use Rattle.chain_records.specs.Records.{files_of, ids_of, records_in};
ghost use Rattle.chain_records.specs.Rewriting.{IsAt, changed, naming, typed};

use crate::records::VolumeRecords;
use sd_names::{Id, VolType};

impl VolumeRecords {
    /// Lets a volume's record name this parent. Where there is no such volume, it does nothing.
    pub fn write_parent(&mut self, id: &Id, parent: Id)
        ensures ids { ids_of self.new ≡ ids_of self.old }
        ensures files { files_of self.new ≡ files_of self.old }
        ensures records { (u : AnyId) → records_in self.new u ≡ changed id.now (naming parent) (records_in self.old) u }
    {
        if let Some(at) = self.position(id) {
            self.put_parent(at, parent);
        }
    }

    /// Gives a volume's record this VOLTYPE. Where there is no such volume, it does nothing.
    pub fn write_voltype(&mut self, id: &Id, voltype: VolType)
        ensures ids { ids_of self.new ≡ ids_of self.old }
        ensures files { files_of self.new ≡ files_of self.old }
        ensures records { (u : AnyId) → records_in self.new u ≡ changed id.now (typed voltype) (records_in self.old) u }
    {
        if let Some(at) = self.position(id) {
            self.put_voltype(at, voltype);
        }
    }

    // The place of the first volume of an identifier.
    fn position(&self, id: &Id) -> Option<usize>
        ensures some { IfSome result (IsAt self.now id.now) }
        ensures within { IfSome result (λ at. at < length self.now) }
        ensures none { IfNone result (records_in self.now id.now ≡ None) }
    {
        for (at, volume) in self.as_slice().iter().enumerate() {
            if volume.id.is(id) {
                return Some(at);
            }
        }
        None
    }
}
