// Laws of a chain whose layer is written: contracts of functions that do nothing.
ghost use Rattle.std.specs.Prelude.{◌≡◌, ◌≢◌, ℕ, slice_get, true, Some};
ghost use Rattle.shared_disk.specs.Calls.{IsPut};
ghost use Rattle.shared_disk.specs.Content.{Content, File};
ghost use Rattle.shared_disk.specs.Crash.{IsSettled, OnEach};
ghost use Rattle.sd_names.specs.declared.id.Id.{Id};
ghost use Rattle.sd_names.specs.declared.kinds.Format.TheVariants.{Cow as CowFormat};
ghost use Rattle.volume_meta.specs.declared.record.VolumeRecord.{VolumeRecord};
ghost use Rattle.qcow_layer.specs.Knowing.{KnowsLayer};
ghost use Rattle.qcow_layer.specs.Opening.{capacity_kept, place_kept, target_kept};
ghost use Rattle.qcow_layer.specs.declared.layer.Layer.{Layer};
ghost use Rattle.chain_model.specs.Folder.{Folder, Volumes, folder_of};
ghost use Rattle.chain_laws.specs.Laid.{Laying};
ghost use Rattle.chain_laws.specs.Written.{FileWritten};
ghost use Rattle.part_laws.specs.Steps.{HoldsIn};
ghost use Rattle.chain_gathering.specs.Knowing.{AreSettled};
ghost use Rattle.chain_reading.specs.Knowing.{KnowsImage};
ghost use Rattle.chain_reading.specs.Reading.{IsAskedFrom};
ghost use Rattle.volume_chain.specs.Chain.{dir_in, open_in, path_in, target_of};
ghost use Rattle.volume_chain.specs.Knowing.{KnowsChain};
ghost use Rattle.volume_chain.specs.LendingChain.{with_layer_at};
ghost use Rattle.volume_chain.specs.declared.chain.Chain.{Chain};
ghost use Rattle.volume_chain.specs.declared.volumes.OpenVolume.TheVariants.{Cow};
ghost use Rattle.raw_writing.specs.Image.{IsOnMedium, IsPartOf};
ghost use Rattle.guest_laws.specs.Write.{KnowsWrite};

/// A law: where the chain knows the image and nothing is unsynced in it, a write to a layer of its path may begin. The layer knows
/// its file, in which nothing is unsynced, and the volume is a COW one of the layer's capacity.
pub fn writes_begin()
    ensures write { (c : Chain) (index : ℕ) (w : Layer) (l : Laying) (x : VolumeRecord) (host : ℕ) (d : Content) → IsPartOf l c x → slice_get (path_in c) index ≡ Some l.volume → slice_get (open_in c) index ≡ Some (Cow w)
        → KnowsChain c host d → AreSettled (dir_in (target_of c)) d
        → (f : File) × KnowsWrite c index w l x host (folder_of (dir_in (target_of c)) d) f d × KnowsLayer w host f × IsSettled f }
    ensures volume { (c : Chain) (index : ℕ) (w : Layer) (l : Laying) (x : VolumeRecord) (host : ℕ) (start : Folder) (f : File) (d : Content) → KnowsWrite c index w l x host start f d
        → (x.format ≡ CowFormat) × (x.capacity ≡ capacity_kept w) }
{}

/// A law: a step that changes the layer's file alone, by which each outcome of it comes from one before, is one of the write, with
/// the layer as the step leaves it.
pub fn layers_are_written()
    ensures { (c : Chain) (index : ℕ) (w next : Layer) (l : Laying) (x : VolumeRecord) (host : ℕ) (start : Folder) (f now : File) (d e : Content) → KnowsWrite c index w l x host start f d
        → target_kept next ≡ target_kept w → IsPut d (place_kept w) (Some now) e → FileWritten l f now → KnowsWrite (with_layer_at c index next) index next l x host start now e }
{}

/// A law: so is a step that changes the layer's file alone and leaves the layer in memory as it was. The chain stays the same, too.
pub fn files_are_written()
    ensures { (c : Chain) (index : ℕ) (w : Layer) (l : Laying) (x : VolumeRecord) (host : ℕ) (start : Folder) (f now : File) (d e : Content) → KnowsWrite c index w l x host start f d
        → IsPut d (place_kept w) (Some now) e → FileWritten l f now → KnowsWrite c index w l x host start now e }
{}

/// A law: once the layer knows its file, in which nothing is unsynced, and the volume itself holds the part on each outcome of
/// it, the part is on the medium and the chain knows the image.
pub fn writes_end()
    ensures { (c : Chain) (index : ℕ) (w : Layer) (l : Laying) (x : VolumeRecord) (host : ℕ) (start : Folder) (f : File) (d : Content) → KnowsWrite c index w l x host start f d → KnowsLayer w host f → IsSettled f
        → OnEach f (HoldsIn l x (λ _. true)) → IsOnMedium c l host d }
{}

/// A law: the volumes below the one that is written can be read all the while.
pub fn lower_volumes_stay_known()
    ensures { (c : Chain) (index : ℕ) (w next : Layer) (l : Laying) (x : VolumeRecord) (host : ℕ) (start : Folder) (f now : File) (d e : Content) (u : Id) (y : Volumes) → KnowsWrite c index w l x host start f d
        → target_kept next ≡ target_kept w → IsPut d (place_kept w) (Some now) e → FileWritten l f now → ((z : Id) → IsAskedFrom c u z → z ≢ l.volume) → KnowsImage c u host y d
        → KnowsImage (with_layer_at c index next) u host y e }
{}
