// What settling and merging change of an open chain.
ghost use Rattle.std.specs.Prelude.{◌≡◌, ◌<◌, IfNone, IfSome, Some, length, slice_get};
ghost use Rattle.sd_names.specs.declared.id.Id.{Id as AnyId};
ghost use Rattle.chain_records.specs.Records.{files_of, ids_of, records_in};
ghost use Rattle.chain_records.specs.Rewriting.{changed, naming, typed};
ghost use Rattle.qcow_layer.specs.declared.layer.Layer.{Layer as AnyLayer};
ghost use Rattle.volume_chain.specs.Chain.{dir_in, open_in, records_kept, target_of};
ghost use Rattle.volume_chain.specs.Parts.{version_of, with_open, with_records};
ghost use Rattle.volume_chain.specs.declared.volumes.OpenVolume.TheVariants.{Cow, Raw};

use crate::chain::Chain;
use crate::volumes::OpenVolume;
use chain_records::VolumeRecords;
use qcow_layer::Layer;
use sd_names::{Dir, Id, VolType};

impl Chain {
    /// The image's folder.
    pub fn folder(&self) -> Dir
        ensures { result ≡ dir_in (target_of self.now) }
    {
        Dir::Image(self.target.sd, self.target.image)
    }

    /// The version of the image's domain, by which texts are written.
    pub fn version(&self) -> u8
        ensures { result ≡ version_of self.now }
    {
        self.target.version
    }

    /// What the texts of all volumes of the image say.
    pub fn records(&self) -> &VolumeRecords
        ensures { result.now ≡ records_kept self.now }
    {
        &self.records
    }

    /// Lets a volume's record name this parent, as its text does. Where there is no such volume, it does nothing.
    pub fn write_parent(&mut self, id: &Id, parent: Id)
        ensures rest { self.new ≡ with_records self.old (records_kept self.new) }
        ensures ids { ids_of (records_kept self.new) ≡ ids_of (records_kept self.old) }
        ensures files { files_of (records_kept self.new) ≡ files_of (records_kept self.old) }
        ensures records { (u : AnyId) → records_in (records_kept self.new) u ≡ changed id.now (naming parent) (records_in (records_kept self.old)) u }
    {
        self.records.write_parent(id, parent)
    }

    /// Gives a volume's record this VOLTYPE, as its text has it. Where there is no such volume, it does nothing.
    pub fn write_voltype(&mut self, id: &Id, voltype: VolType)
        ensures rest { self.new ≡ with_records self.old (records_kept self.new) }
        ensures ids { ids_of (records_kept self.new) ≡ ids_of (records_kept self.old) }
        ensures files { files_of (records_kept self.new) ≡ files_of (records_kept self.old) }
        ensures records { (u : AnyId) → records_in (records_kept self.new) u ≡ changed id.now (typed voltype) (records_in (records_kept self.old)) u }
    {
        self.records.write_voltype(id, voltype)
    }

    /// Takes out the layer of the volume at a place of the path, so that it can be changed. Until it is put back, a raw
    /// volume of no bytes stands there. None, and nothing is changed, where no layer stands there.
    pub fn take_layer(&mut self, at: usize) -> Option<Layer>
        ensures some { IfSome result (λ layer. slice_get (open_in self.old) at ≡ Some (Cow layer)) }
        ensures room { IfSome result (λ _. at < length (open_in self.new)) }
        ensures taken { IfSome result (λ _. self.new ≡ with_open self.old at (Raw 0)) }
        ensures none { IfNone result (self.new ≡ self.old) }
        ensures other { IfNone result ((layer : AnyLayer) → slice_get (open_in self.old) at ≡ Some (Cow layer) → ⊥) }
    {
        self.volumes.take_layer(at)
    }

    /// Puts a layer back at its place of the path.
    pub fn put_layer(&mut self, at: usize, layer: Layer)
        requires { at < length (open_in self.old) }
        ensures { self.new ≡ with_open self.old at (Cow layer) }
    {
        self.volumes.put(at, OpenVolume::Cow(layer))
    }
}
