// Laws of the filling: contracts of functions that do nothing.
ghost use Rattle.std.specs.Prelude.{◌≡◌, Some};
ghost use Rattle.shared_disk.specs.Content.{File};
ghost use Rattle.shared_disk.specs.Crash.{IsSettled};
ghost use Rattle.volume_meta.specs.declared.record.VolumeRecord.{VolumeRecord};
ghost use Rattle.chain_model.specs.Folder.{Volumes};
ghost use Rattle.chain_laws.specs.Laid.{Laying};
ghost use Rattle.chain_laws.specs.Written.{FileWritten};
ghost use Rattle.write_filling.specs.Filling.{HoldsSince};

/// A law: where nothing is unsynced in the volume's file, a write begins from what it holds; and each step of the write by which
/// every outcome of the file holds what one from before held, or more of the part, keeps that.
pub fn volumes_hold_since_the_begin()
    ensures begun { (l : Laying) (x : VolumeRecord) (old : Volumes) (f : File) → l.records l.volume ≡ Some x → old.file l.volume ≡ Some f → IsSettled f → HoldsSince l x old f }
    ensures written { (l : Laying) (x : VolumeRecord) (old : Volumes) (f g : File) → l.records l.volume ≡ Some x → HoldsSince l x old f → FileWritten l f g → HoldsSince l x old g }
{}
