// The volume that guests read and write, and which volumes are read through.
ghost use Rattle.std.specs.Prelude.{◌≡◌, ◌↔◌, IfNone, IfSome, IsTrue, List, MatchOption, true};
ghost use Rattle.sd_names.specs.declared.id.Id.{Id as AnyId};
ghost use Rattle.chain_model.specs.Opening.{IsUsed};
ghost use Rattle.chain_model.specs.Reading.{HasNoReading, IsReading};
ghost use Rattle.chain_model.specs.Records.{is_legal};
ghost use Rattle.chain_records.specs.Paths.{HaveAllLegal, IsReadingPath, IsReadingPathOf, ReadsThrough};
ghost use Rattle.chain_records.specs.Records.{records_in};

use crate::records::VolumeRecords;
use crate::volume_list::VolumeList;
use sd_names::Id;

impl VolumeRecords {
    /// The path of the reading volume, the LEGAL one on whose path each other LEGAL one stands: first the volume, and
    /// last its base. None where no volume is that.
    pub fn reading_path(&self) -> Option<VolumeList>
        ensures { MatchOption result (HasNoReading (records_in self.now))
            (λ path. IsReadingPath (records_in self.now) path) }
    {
        for volume in self.as_slice() {
            if let Some(path) = self.reading_path_of(&volume.id) {
                return Some(path);
            }
        }
        None
    }

    // The path of this volume, if it is the reading one.
    fn reading_path_of(&self, id: &Id) -> Option<VolumeList>
        ensures some { IfSome result (λ path. IsReadingPathOf (records_in self.now) id.now path) }
        ensures none { IfNone result ((vs : List AnyId) → IsReading (records_in self.now) id.now vs → ⊥) }
    {
        if !self.is_legal(id) {
            return None;
        }
        let Some(below) = self.below(id) else {
            return None;
        };
        let path = self.path(id, &below);
        if self.has_all_legal(&path) {
            Some(path)
        } else {
            None
        }
    }

    // Whether each LEGAL volume is among these.
    fn has_all_legal(&self, path: &VolumeList) -> bool
        ensures { IsTrue result ↔ HaveAllLegal (records_in self.now) path.now }
    {
        for volume in self.as_slice() {
            if self.is_legal(&volume.id) && !path.contains(&volume.id) {
                return false;
            }
        }
        true
    }

    /// Whether a volume stands on the path of a LEGAL one.
    pub fn is_used(&self, id: &Id) -> bool
        ensures { IsTrue result ↔ IsUsed (records_in self.now) id.now }
    {
        for volume in self.as_slice() {
            if self.reads_through(id, &volume.id) {
                return true;
            }
        }
        false
    }

    // Whether a volume stands on the path of `reader`, and that is LEGAL.
    fn reads_through(&self, id: &Id, reader: &Id) -> bool
        ensures { IsTrue result ↔ ReadsThrough (records_in self.now) id.now reader.now }
    {
        if !self.is_legal(reader) {
            return false;
        }
        let Some(below) = self.below(reader) else {
            return false;
        };
        let path = self.path(reader, &below);
        path.contains(id)
    }
}
