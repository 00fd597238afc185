// Laws of writes to raw volumes: contracts of functions that do nothing.
ghost use Rattle.std.specs.Prelude.{◌≡◌, ◌*◌, ℕ};
ghost use Rattle.sd_names.specs.declared.kinds.Format.TheVariants.{Raw};
ghost use Rattle.shared_disk.specs.Content.{Content};
ghost use Rattle.volume_meta.specs.declared.record.VolumeRecord.{VolumeRecord};
ghost use Rattle.chain_gathering.specs.Knowing.{AreSettled};
ghost use Rattle.chain_laws.specs.Laid.{Laying};
ghost use Rattle.chain_model.specs.Folder.{folder_of};
ghost use Rattle.volume_chain.specs.Chain.{dir_in, target_of};
ghost use Rattle.volume_chain.specs.Knowing.{KnowsChain};
ghost use Rattle.volume_chain.specs.declared.chain.Chain.{Chain};
ghost use Rattle.raw_writing.specs.Image.{IsPartOf};
ghost use Rattle.raw_writing.specs.Writing.{IsBegun, Knows};
ghost use Rattle.raw_writing.specs.declared.writing.RawWriting.{RawWriting as AnyWriting};

/// A law: a write that was begun knows each image that the chain knows and in which nothing is unsynced, where its volume is
/// a raw one of the path and the part lies within its capacity.
pub fn writings_begin()
    ensures { (w : AnyWriting) (c : Chain) (l : Laying) (x : VolumeRecord) (host : ℕ) (d : Content) → IsBegun c l.volume (512 * l.part.at) w → IsPartOf l c x → x.format ≡ Raw
        → KnowsChain c host d → AreSettled (dir_in (target_of c)) d → Knows w c l x host (folder_of (dir_in (target_of c)) d) d }
{}
